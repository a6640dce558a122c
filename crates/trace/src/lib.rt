// The text of a pack, part by part: what it is, that its parts are the whole, and where printing begins. A part is written by `trace_parts`.
#![tactic(auto)]

ghost use Rattle.std.specs.Prelude.{◌≡◌};
ghost use Rattle.trace.specs.Parts.{first_place};

use state::Service;
use translation::CodeSet;

// The most reports of a part.
pub const REPORTS: usize = 372;

// Room for a part. The closing lines are shorter than a report, so they fit wherever one more report would.
pub const PART: usize = REPORTS * report::LENGTH;

// A place in the text of a pack: before the report of the event at this offset, which this service will run; or, ended, behind the closing lines.
// A flag and no `Option`: the theorems on parts speak of the service and the offset behind the end too.
#[derive(Clone, Copy)]
pub struct Place {
    pub service: Service,
    pub offset: u16,
    pub ended: bool,
}

// What a call printed, counted in bytes, and the place that it leaves for the next call.
#[derive(Clone, Copy)]
pub struct Part {
    pub place: Place,
    pub length: usize,
}

// The place before the first byte of a pack, with the service that kbdtrace starts from: lock bits 0, set 1.
pub fn begin() -> Place
    ensures { result ≡ first_place }
{
    Place {
        service: service_making::make(CodeSet::One, 0).unwrap(),
        offset: 0,
        ended: false,
    }
}
