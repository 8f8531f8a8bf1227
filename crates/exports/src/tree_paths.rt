// The paths and classes of an opened study, by its gates or by a drawn tree.
ghost use Rattle.meaning.specs.Meaning.{by_gates, by_tree};
ghost use Rattle.export_paths.specs.Paths.{ListsPaths, BoundsPaths, BoundsClasses};

use meaning::Source;

// Lists the paths of a study at the front of the buffer; answers how many there are. Refused by 16, 18, in this order.
#[unsafe(no_mangle)]
pub extern "C" fn grid_list_paths(study: &[u8], buffer: &mut [u8]) -> i64
    ensures { ListsPaths by_gates study.now buffer.old buffer.new result }
{
    export_paths::list_paths(study, Source::Gates, buffer)
}

// The same by a drawn tree in place of the study's gates. Refused by 16, then 20, 21 or 22, then 18.
#[unsafe(no_mangle)]
pub extern "C" fn grid_drawn_list_paths(study: &[u8], tree: &[u8], buffer: &mut [u8]) -> i64
    ensures { ListsPaths (by_tree tree.now) study.now
        buffer.old buffer.new result }
{
    export_paths::list_paths(study, Source::Tree(tree), buffer)
}

// Bounds for the paths of a study, in the order of its list, at the front of two slices; answers how many there are.
// Refused by 16, 18, in this order.
#[unsafe(no_mangle)]
pub extern "C" fn grid_path_bounds(study: &[u8], lower: &mut [u64], upper: &mut [u64]) -> i64
    ensures { BoundsPaths by_gates study.now
        lower.old upper.old lower.new upper.new result }
{
    export_paths::path_bounds(study, Source::Gates, lower, upper)
}

// The same by a drawn tree in place of the study's gates. Refused by 16, then 20, 21 or 22, then 18.
#[unsafe(no_mangle)]
pub extern "C" fn grid_drawn_path_bounds(
    study: &[u8],
    tree: &[u8],
    lower: &mut [u64],
    upper: &mut [u64],
) -> i64
    ensures { BoundsPaths (by_tree tree.now) study.now
        lower.old upper.old lower.new upper.new result }
{
    export_paths::path_bounds(study, Source::Tree(tree), lower, upper)
}

// Bounds for the classes of a study, at places 0 to 255 of two slices. Refused by 16, 18, in this order.
#[unsafe(no_mangle)]
pub extern "C" fn grid_class_bounds(study: &[u8], lower: &mut [u64], upper: &mut [u64]) -> i64
    ensures { BoundsClasses by_gates study.now
        lower.old upper.old lower.new upper.new result }
{
    export_paths::class_bounds(study, Source::Gates, lower, upper)
}

// The same by a drawn tree in place of the study's gates. Refused by 16, then 20, 21 or 22, then 18.
#[unsafe(no_mangle)]
pub extern "C" fn grid_drawn_class_bounds(
    study: &[u8],
    tree: &[u8],
    lower: &mut [u64],
    upper: &mut [u64],
) -> i64
    ensures { BoundsClasses (by_tree tree.now) study.now
        lower.old upper.old lower.new upper.new result }
{
    export_paths::class_bounds(study, Source::Tree(tree), lower, upper)
}
