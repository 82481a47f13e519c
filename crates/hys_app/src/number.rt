ghost use Rattle.std.specs.Prelude.{◌≡◌};
ghost use Rattle.hys_app.specs.Statuses.{number_of};

use crate::Status;

impl Status {
    /// The exit status of the program, from 0 to 10.
    #[tactic(auto, unfolding(crate::specs::Statuses::number_of))]
    pub fn number(self) -> u8
        ensures { result ≡ number_of self }
    {
        self as u8
    }
}
