//! The text of a survey.
ghost use Rattle.std.specs.Prelude.{◌≡◌, ◌++◌, IfOk, OnOk, string_bytes};
ghost use Rattle.std.specs.List.{flat_map};
ghost use Rattle.building.specs.Building.{contents_of};
ghost use Rattle.cli_check.specs.DatabaseCheck.{finding_line, holdings_text, survey_text};

use crate::file_check::ok_line;
use building::Building;
use desk_adopt::{Finding, Holdings, Survey};
use std::alloc::{AllocError, Global};

// The lines of findings.
fn findings_text(alloc: Global, findings: &[Finding]) -> Result<String, AllocError>
    ensures { IfOk result (λ text. string_bytes text ≡ flat_map finding_line findings.now) }
{
    let mut text = String::new(alloc);
    for finding in findings {
        push_finding(alloc, &mut text, finding)?;
    }
    Ok(text)
}

fn push_finding(alloc: Global, text: &mut String, finding: &Finding) -> Result<(), AllocError>
    ensures { OnOk result (string_bytes text.new ≡ string_bytes text.old ++ finding_line finding.now) }
{
    let line = format!(in alloc; "{finding}\n")?;
    text.push_str(line.as_str())?;
    Ok(())
}

// What the building has, and what the tables hold.
fn holdings_text(
    alloc: Global,
    building: &Building,
    holdings: &Holdings,
) -> Result<String, AllocError>
    ensures { IfOk result (λ text. string_bytes text ≡ holdings_text (contents_of building.now) holdings.now) }
{
    let mut text = ok_line(alloc, building)?;
    let line = format!(in alloc; "{holdings}\n")?;
    text.push_str(line.as_str())?;
    Ok(text)
}

/// A line for each finding; where there is none, what the building has and what the tables hold.
pub fn survey_text(
    alloc: Global,
    building: &Building,
    survey: &Survey,
) -> Result<String, AllocError>
    ensures { IfOk result (λ text. string_bytes text
        ≡ survey_text (contents_of building.now) survey.now.findings.items survey.now.holdings) }
{
    if survey.findings.is_empty() {
        holdings_text(alloc, building, &survey.holdings)
    } else {
        findings_text(alloc, survey.findings.as_slice())
    }
}
