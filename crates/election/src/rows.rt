//! Rows with a place for each node, changed as a whole.
ghost use Rattle.std.specs.Bool.{OnFalse, OnTrue};
ghost use Rattle.std.specs.Prelude.{◌≡◌, map, option_map};
ghost use Rattle.election.specs.Failing.{older, older_report, without};

use crate::ages::older;
use crate::report::Report;
use slot_table::NodeNo;

// The ages a tick later.
pub(crate) fn all_older(ages: [u32; 16]) -> [u32; 16]
    ensures { result ≡ map older ages }
{
    let mut later = ages;
    for at in 0..16 {
        later[at] = older(ages[at]);
    }
    later
}

// The reports a tick later.
pub(crate) fn all_reports_older(reports: [Option<Report>; 16]) -> [Option<Report>; 16]
    ensures { result ≡ map (option_map older_report) reports }
{
    let mut later = reports;
    for at in 0..16 {
        later[at] = report_older(reports[at]);
    }
    later
}

fn report_older(report: Option<Report>) -> Option<Report>
    ensures { result ≡ option_map older_report report }
{
    report.map(|report| report.older())
}

// Whether a report names the node. Mostly none does.
pub(crate) fn any_names(reports: &[Option<Report>; 16], node: NodeNo) -> bool
    ensures { OnFalse result (map (option_map (without node)) reports.now ≡ reports.now) }
{
    for at in 0..16 {
        if !is_without(reports[at], node) {
            return true;
        }
    }
    false
}

fn is_without(report: Option<Report>, node: NodeNo) -> bool
    ensures { OnTrue result (option_map (without node) report ≡ report) }
{
    match report {
        None => true,
        Some(report) => report.is_without(node),
    }
}

// The reports without the name of the node.
pub(crate) fn all_without(reports: [Option<Report>; 16], node: NodeNo) -> [Option<Report>; 16]
    ensures { result ≡ map (option_map (without node)) reports }
{
    let mut later = reports;
    for at in 0..16 {
        later[at] = report_without(reports[at], node);
    }
    later
}

fn report_without(report: Option<Report>, node: NodeNo) -> Option<Report>
    ensures { result ≡ option_map (without node) report }
{
    report.map(|report| report.without(node))
}
