// The list of a model's paths: in a lent buffer, and in one that has room for any list.
use crate::in_hand::ModelInHand;
use answers::PathCount;
use rules::Refusal;

impl ModelInHand<'_> {
    ghost use Rattle.std.specs.Prelude.{◌≤◌, ◌≡◌, length};
    ghost use Rattle.answers.specs.Answers.{by_number};
    ghost use Rattle.entries.specs.Entries.{list_bytes};
    ghost use Rattle.event_tree.specs.Lent.{listed_in, buffer_in};
    ghost use Rattle.model.specs.Listed.{Listed};
    ghost use Rattle.model.specs.Model.{paths_of};
    ghost use Rattle.study_model.specs.InHand.{model_in};

    // Lists the paths at the front of a lent buffer. Refused by 18.
    pub fn list_lent(self, buffer: &mut [u8]) -> Result<PathCount, Refusal>
        ensures answer { by_number result ≡ listed_in (paths_of (model_in self.entry)) buffer.old }
        ensures buffer { buffer.new ≡ buffer_in (paths_of (model_in self.entry)) buffer.old }
    {
        event_tree::list_lent(self.block(), buffer)
    }

    // Lists the paths in a buffer that has room for any list, and answers how many there are.
    pub fn list_whole(self, list: &mut [u8]) -> u32
        requires { list_bytes ≤ length list.old }
        ensures { Listed (model_in self.entry) result list.new }
    {
        match self.list_lent(list) {
            Ok(count) => count.paths,
            Err(_) => unreachable!(),
        }
    }
}
