// The lines of the steps of a round.
ghost use Rattle.std.specs.Prelude.{◌++◌};
ghost use Rattle.text_ascii.specs.Bytes.{ascii};
ghost use Rattle.model_steps.specs.declared.Step.TheVariants.{Deliver};
ghost use Rattle.text_report.specs.Report.{end, field};
ghost use Rattle.text_report.specs.Within.{Within};
ghost use Rattle.text_step.specs.Step.{text};
ghost use Rattle.finish_list.specs.Longest.{longest_deliver, longest_round};

use text_ascii::Page;

// A line that begins with this name, which ends with the key of the coordinator.
pub fn round_line(page: &mut Page, name: &[u8], coord: u8, inst: u8, ballot: u8)
    ensures { Within (longest_round name.now) page.old page.new (field name.now coord ++ field (ascii " inst=") inst ++ field (ascii " ballot=") ballot ++ end) }
{
    text_report::byte_fields(page, name, coord, b" inst=", inst);
    text_report::byte_field(page, b" ballot=", ballot);
    text_report::end(page);
}

pub fn deliver_line(page: &mut Page, msg: u8)
    ensures { Within longest_deliver page.old page.new (text (Deliver msg) ++ end) }
{
    text_report::byte_field(page, b"do=deliver msg=", msg);
    text_report::end(page);
}
