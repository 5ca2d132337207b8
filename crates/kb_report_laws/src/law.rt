//! What the texts of reports have in common.
ghost use Rattle.std.specs.Prelude.{◌≡◌, IfOk};
ghost use Rattle.std.specs.List.{AllByRecursion};
ghost use Rattle.kb_classes.specs.World.{World as PlainWorld};
ghost use Rattle.kb_link.specs.Links.{IsLinked};
ghost use Rattle.kb_report_text.specs.Ranges.{ReportFits};
ghost use Rattle.kb_report_text.specs.Report.{report_text};
ghost use Rattle.kb_report_text.specs.declared.report.Report.{Report as PlainReport};
ghost use Rattle.kb_report_laws.specs.Example.{ExampleIsReport};
ghost use Rattle.kb_report_laws.specs.OneText.{IsSound, IsReport, HaveOwnTexts};

use kb_report_text::{NoMemory, Report, report_text};
use kb_semantics::World;
use std::alloc::Global;

/// In a linked world no two reports whose paths are well-formed have one text. The function does nothing: it carries the law.
pub fn reports_have_own_texts()
    ensures { (world : PlainWorld) → IsLinked world → HaveOwnTexts world }
{}

/// The report of one path that stands in `specs/Example.antt` is one of which the law speaks. The function does nothing.
pub fn example_is_a_report()
    ensures { ExampleIsReport }
{}

/// The text of a report whose paths are well-formed, which no other report has. Refused only where memory runs out. It also tells
/// that the report's numbers are in the ranges of their types.
pub fn own_report_text(alloc: Global, world: &World, report: &Report) -> Result<Vec<u8>, NoMemory>
    requires linked { IsLinked world.now }
    requires paths { AllByRecursion (IsSound world.now) report.now.leaves }
    ensures text { IfOk result (λ text. text.items ≡ report_text world.now report.now) }
    ensures fits { ReportFits report.now }
    ensures own { IfOk result (λ text. (other : PlainReport) → IsReport world.now other → report_text world.now other ≡ text.items → other ≡ report.now) }
{
    reports_have_own_texts();
    report_text(alloc, world, report)
}
