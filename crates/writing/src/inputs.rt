// The inputs of a gate, its tests and its gate inputs, as they stand behind their count; none where the count is absent.
ghost use Rattle.std.specs.Prelude.{◌≤◌};
ghost use Rattle.lists.specs.Rows.{joined};
ghost use Rattle.lists.specs.Tabulate.{tabulate};
ghost use Rattle.rules.specs.Limits.{most_tests, most_gate_inputs};
ghost use Rattle.text.specs.Writer.{Room, Wrote};
ghost use Rattle.study_bytes.specs.Written.{test_bytes, input_bytes};

use study::Gate;
use text::Writer;

// Writes the tests of a gate.
pub fn write_tests(g: &Gate, out: &mut Writer)
    requires tests_le_most_tests { g.now.tests ≤ most_tests }
    requires room { Room out.old (joined (tabulate (test_bytes g.now) g.now.tests)) }
    ensures { Wrote out.old (joined (tabulate (test_bytes g.now) g.now.tests)) out.new }
{
    for j in 0..usize::from(g.tests) {
        out.put(&[g.component[j], g.mask[j]]);
    }
}

// Writes the gate inputs of a gate.
pub fn write_inputs(g: &Gate, out: &mut Writer)
    requires gates_le_most_gate_inputs { g.now.gates ≤ most_gate_inputs }
    requires room { Room out.old (joined (tabulate (input_bytes g.now) g.now.gates)) }
    ensures { Wrote out.old (joined (tabulate (input_bytes g.now) g.now.gates)) out.new }
{
    out.put(&g.input[..usize::from(g.gates)]);
}
