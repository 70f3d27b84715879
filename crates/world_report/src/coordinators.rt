// Coordinators as they are printed.
ghost use Rattle.std.specs.Prelude.{◌*◌};
ghost use Rattle.model_steps.specs.Limits.{coordinators};
ghost use Rattle.text_report.specs.Within.{Within, longest_line};
ghost use Rattle.world_report.specs.Coordinators.{coordinator_line, coordinator_text, coordinators_text};
ghost use Rattle.world_report.specs.Longest.{longest_coordinator};

use log_core::Log;
use model_protocol::Coordinator;
use model_protocol::limits::COORDINATOR_PLACES;
use model_steps::limits::COORDINATORS;
use text_ascii::Page;

pub fn coordinator_line(page: &mut Page, coord: u8, applied: u8)
    ensures { Within longest_line page.old page.new (coordinator_line coord applied) }
{
    text_report::byte_fields(page, b"coord=", coord, b" applied=", applied);
    text_report::end(page);
}

// Its line and its log.
pub fn put_coordinator(page: &mut Page, coord: u8, c: &Coordinator, log: &Log)
    ensures { Within longest_coordinator page.old page.new (coordinator_text coord c.now log.now) }
{
    coordinator_line(page, coord, c.applied);
    text_report::put_log(page, log);
}

pub fn put_coordinators(
    page: &mut Page,
    cs: &[Coordinator; COORDINATOR_PLACES],
    logs: &[Log; COORDINATOR_PLACES],
)
    ensures { Within (coordinators * longest_coordinator) page.old page.new (coordinators_text cs.now logs.now) }
{
    for coord in 0..COORDINATORS {
        let i = usize::from(coord);
        put_coordinator(page, coord, &cs[i], &logs[i]);
    }
}
