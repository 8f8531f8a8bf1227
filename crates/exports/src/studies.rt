// Opening, the edits and saving.
ghost use Rattle.export_studies.specs.Images.{Opens, SetsProbabilities, SetsCustomers, SetsMinutes};
ghost use Rattle.export_studies.specs.Saving.{Saves};

// Opens a study; its image stands at the front of the slice. Refused by the first breach met, 1 to 15, then by 18.
#[unsafe(no_mangle)]
pub extern "C" fn grid_open(bytes: &[u8], study: &mut [u8]) -> i64
    ensures { Opens bytes.now study.old study.new result }
{
    export_studies::open(bytes, study)
}

// Sets how likely states 1 to 3 of a component are. Refused by 16, 17, 5, 6, in this order.
#[unsafe(no_mangle)]
pub extern "C" fn grid_set_probabilities(
    study: &mut [u8],
    component: usize,
    p1: u32,
    p2: u32,
    p3: u32,
) -> i64
    ensures { SetsProbabilities component p1 p2 p3 study.old study.new result }
{
    export_studies::set_probabilities(study, component, p1, p2, p3)
}

// Sets the customers of a load. Refused by 16, 17, 14, in this order.
#[unsafe(no_mangle)]
pub extern "C" fn grid_set_customers(study: &mut [u8], load: usize, customers: u32) -> i64
    ensures { SetsCustomers load customers study.old study.new result }
{
    export_studies::set_customers(study, load, customers)
}

// Sets the minutes of a load's restore time. Refused by 16, 17, 14, in this order.
#[unsafe(no_mangle)]
pub extern "C" fn grid_set_minutes(study: &mut [u8], load: usize, minutes: u32) -> i64
    ensures { SetsMinutes load minutes study.old study.new result }
{
    export_studies::set_minutes(study, load, minutes)
}

// Writes a study at the front of the buffer; answers how many bytes it has. Refused by 16, 18, in this order.
#[unsafe(no_mangle)]
pub extern "C" fn grid_write(study: &[u8], bytes: &mut [u8]) -> i64
    ensures { Saves study.now bytes.old bytes.new result }
{
    export_studies::write(study, bytes)
}
