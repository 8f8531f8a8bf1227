// The edits of an opened study: its image is edited in place. A slice too short for an image holds no sound study, so
// that none is refused by 18.
ghost use Rattle.export_studies.specs.Images.{SetsProbabilities, SetsCustomers, SetsMinutes};

use crate::images::keep;
use study_image::read_image;

// Sets how likely states 1 to 3 of a component are. Refused by 16, 17, 5, 6, in this order.
pub fn set_probabilities(image: &mut [u8], component: usize, p1: u32, p2: u32, p3: u32) -> i64
    ensures { SetsProbabilities component p1 p2 p3 image.old image.new result }
{
    let mut study = read_image(image);
    let outcome = editing::set_probabilities(&mut study, component, p1, p2, p3);
    keep(outcome, &study, image)
}

// Sets the customers of a load. Refused by 16, 17, 14, in this order.
pub fn set_customers(image: &mut [u8], load: usize, customers: u32) -> i64
    ensures { SetsCustomers load customers image.old image.new result }
{
    let mut study = read_image(image);
    let outcome = editing::set_customers(&mut study, load, customers);
    keep(outcome, &study, image)
}

// Sets the minutes of a load's restore time. Refused by 16, 17, 14, in this order.
pub fn set_minutes(image: &mut [u8], load: usize, minutes: u32) -> i64
    ensures { SetsMinutes load minutes image.old image.new result }
{
    let mut study = read_image(image);
    let outcome = editing::set_minutes(&mut study, load, minutes);
    keep(outcome, &study, image)
}
