ghost use Rattle.std.specs.Prelude.{◌≡◌};
ghost use Rattle.notices.specs.Waiting.{none_waiting, with_notice};

use crate::notice::Notice;
use events::per_transition::PerTransition;

/// The notices of one door that wait to be handed out: at most one for each transition, since a later one overtakes it.
#[derive(Clone, Copy)]
pub struct Waiting {
    pub notices: PerTransition<Option<Notice>>,
}

impl Waiting {
    pub fn none() -> Waiting
        ensures { result ≡ none_waiting }
    {
        Waiting {
            notices: PerTransition {
                to_offnormal: None,
                to_fault: None,
                to_normal: None,
            },
        }
    }

    /// With this notice too; one of its transition that waited is overtaken.
    pub fn with(self, notice: Notice) -> Waiting
        ensures { result ≡ with_notice self notice }
    {
        Waiting {
            notices: self.notices.with(notice.transition, Some(notice)),
        }
    }
}
