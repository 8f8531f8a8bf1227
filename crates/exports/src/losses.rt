// The losses of an opened study, by its gates or by a drawn tree: bounds for the loss of a load, and the figures; and
// the loads that a class loses.
ghost use Rattle.meaning.specs.Meaning.{by_gates, by_tree};
ghost use Rattle.export_answers.specs.Answers.{two};
ghost use Rattle.export_losses.specs.Figures.{GivesFigures};
ghost use Rattle.export_losses.specs.Losses.{BoundsLoad, CountsLost};

use entries::Class;
use meaning::Source;

// Bounds for the loss of a load, in two numbers. Refused by 16, 17, in this order.
#[unsafe(no_mangle)]
pub extern "C" fn grid_load_bounds(
    study: &[u8],
    load: usize,
    lower: &mut u64,
    upper: &mut u64,
) -> i64
    ensures { BoundsLoad by_gates study.now load
        (two lower.old upper.old) (two lower.new upper.new) result }
{
    export_losses::load_bounds(study, Source::Gates, load, lower, upper)
}

// The same by a drawn tree in place of the study's gates. Refused by 16, 17, then 20, 21 or 22.
#[unsafe(no_mangle)]
pub extern "C" fn grid_drawn_load_bounds(
    study: &[u8],
    tree: &[u8],
    load: usize,
    lower: &mut u64,
    upper: &mut u64,
) -> i64
    ensures { BoundsLoad (by_tree tree.now) study.now load
        (two lower.old upper.old) (two lower.new upper.new) result }
{
    export_losses::load_bounds(study, Source::Tree(tree), load, lower, upper)
}

// SAIFI, SAIDI, CAIDI and MAIFI, lower and upper bound of each in a number of its own; answers how many are stated,
// since CAIDI may not be. Refused by 16, 19, in this order.
#[unsafe(no_mangle)]
pub extern "C" fn grid_figures(
    study: &[u8],
    saifi_lower: &mut u64,
    saifi_upper: &mut u64,
    saidi_lower: &mut u64,
    saidi_upper: &mut u64,
    caidi_lower: &mut u64,
    caidi_upper: &mut u64,
    maifi_lower: &mut u64,
    maifi_upper: &mut u64,
) -> i64
    ensures { GivesFigures by_gates study.now
        (two saifi_lower.old saifi_upper.old)
        (two saidi_lower.old saidi_upper.old)
        (two caidi_lower.old caidi_upper.old)
        (two maifi_lower.old maifi_upper.old)
        (two saifi_lower.new saifi_upper.new)
        (two saidi_lower.new saidi_upper.new)
        (two caidi_lower.new caidi_upper.new)
        (two maifi_lower.new maifi_upper.new) result }
{
    export_losses::figures(
        study,
        Source::Gates,
        saifi_lower,
        saifi_upper,
        saidi_lower,
        saidi_upper,
        caidi_lower,
        caidi_upper,
        maifi_lower,
        maifi_upper,
    )
}

// The same by a drawn tree in place of the study's gates. Refused by 16, then 20, 21 or 22, then 19.
#[unsafe(no_mangle)]
pub extern "C" fn grid_drawn_figures(
    study: &[u8],
    tree: &[u8],
    saifi_lower: &mut u64,
    saifi_upper: &mut u64,
    saidi_lower: &mut u64,
    saidi_upper: &mut u64,
    caidi_lower: &mut u64,
    caidi_upper: &mut u64,
    maifi_lower: &mut u64,
    maifi_upper: &mut u64,
) -> i64
    ensures { GivesFigures (by_tree tree.now) study.now
        (two saifi_lower.old saifi_upper.old)
        (two saidi_lower.old saidi_upper.old)
        (two caidi_lower.old caidi_upper.old)
        (two maifi_lower.old maifi_upper.old)
        (two saifi_lower.new saifi_upper.new)
        (two saidi_lower.new saidi_upper.new)
        (two caidi_lower.new caidi_upper.new)
        (two maifi_lower.new maifi_upper.new) result }
{
    export_losses::figures(
        study,
        Source::Tree(tree),
        saifi_lower,
        saifi_upper,
        saidi_lower,
        saidi_upper,
        caidi_lower,
        caidi_upper,
        maifi_lower,
        maifi_upper,
    )
}

// How many loads are lost in a class.
#[unsafe(no_mangle)]
pub extern "C" fn grid_loads_lost(class: Class) -> i64
    ensures { CountsLost class result }
{
    export_losses::loads_lost(class)
}
