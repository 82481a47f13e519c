//! Laws of the texts, as calls that do nothing.

ghost use Rattle.std.specs.Prelude.{◌≡◌};
ghost use Rattle.hys_gen.specs.Tanks.{tanks_text};
ghost use Rattle.hys_gen.specs.Requested.{request_text};
ghost use Rattle.hys_gen.specs.Worked.{one_tank, two_tanks, one_request, eleven_request};

/// The sources for one tank and for two are these texts.
pub fn worked_sources()
    ensures one { tanks_text 1 ≡ one_tank }
    ensures two { tanks_text 2 ≡ two_tanks }
{}

/// The requests for one tank and for eleven are these texts.
pub fn worked_requests()
    ensures one { request_text 1 ≡ one_request }
    ensures eleven { request_text 11 ≡ eleven_request }
{}
