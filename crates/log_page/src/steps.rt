// What is printed for a record, behind those that came before it.
ghost use Rattle.std.specs.Prelude.{◌≡◌, false, [], ◌≤◌, length};
ghost use Rattle.spec.specs.Faults.{settled};
ghost use Rattle.spec.specs.ResultRecord.{rising};
ghost use Rattle.place.specs.Put.{Put};
ghost use Rattle.page.specs.Lines.{refused_line};
ghost use Rattle.page.specs.Page.{entry, heard, operator_says};
ghost use Rattle.log_page.specs.Steps.{last_step, entry_step, step_of};
ghost use Rattle.log_page.specs.Counts.{Within};
ghost use Rattle.log_page.specs.Made.{Made};
ghost use Rattle.log_page.specs.Stop.{number_if};

use log_lines::{put_last, put_refused, put_result};
use refusals::Refusal;
use result::read_result_operator;
use std::ops::ControlFlow;

// How many records were read, and how many rows they had.
#[derive(Clone, Copy, Debug, PartialEq, Eq)]
pub struct Totals {
    pub records: u32,
    pub rows: u32,
}

// How many bytes were written, and what has been read then: the page breaks off there, or goes on with it.
#[derive(Drop)]
pub struct LogStep {
    pub count: usize,
    pub flow: ControlFlow<Totals, Totals>,
}

// A refusal's line, if there is a refusal. Returns the place behind it.
fn put_refusal(out: &mut [u8], refusal: Option<Refusal>) -> usize
    requires { 44 ≤ length out.old }
    ensures { (Put 0 (settled (number_if refusal) refused_line []) out.old result out.new) × (result ≤ 44) }
{
    match refusal {
        Some(refusal) => put_refused(out, 0, refusal.number()),
        None => 0,
    }
}

// The end of the page.
fn close(totals: Totals, refusal: Option<Refusal>, out: &mut [u8]) -> LogStep
    requires { (Within totals.records totals.rows) × (88 ≤ length out.old) }
    ensures { Made (last_step totals.records totals.rows (number_if refusal)) out.old result out.new }
{
    let at = put_refusal(out, refusal);
    let count = put_last(out, at, totals.records, totals.rows);
    LogStep {
        count,
        flow: ControlFlow::Break(totals),
    }
}

// The line of a record that was read.
fn enter(totals: Totals, frame: u32, rows: u32, scores: &[i32], out: &mut [u8]) -> LogStep
    requires { (Within totals.records totals.rows) × (1 ≤ length scores.now) × (rows ≤ 32) × (rising scores.now ≡ false)
        × (88 ≤ length out.old) }
    ensures { Made (entry_step totals.records totals.rows (entry frame rows scores.now)) out.old result out.new }
{
    let count = put_result(out, 0, frame, rows, scores);
    LogStep {
        count,
        flow: ControlFlow::Continue(Totals {
            records: totals.records + 1,
            rows: totals.rows + rows,
        }),
    }
}

// The step of a record where one may come.
fn write_record(totals: Totals, bytes: &[u8], out: &mut [u8]) -> LogStep
    requires { (Within totals.records totals.rows) × (88 ≤ length out.old) }
    ensures { Made
        (heard (operator_says bytes.now) (last_step totals.records totals.rows) (entry_step totals.records totals.rows))
        out.old result out.new }
{
    let mut scores = [0i32; 32];
    match read_result_operator(bytes, &mut scores) {
        Ok(head) => {
            let k = head.rows as usize;
            enter(totals, head.frame, head.rows, &scores[..k], out)
        }
        Err(refusal) => close(totals, Some(refusal), out),
    }
}

// The step of a record of these bytes, or of the end of the input where there are none, at the front of `out`.
pub fn write_step(totals: Totals, bytes: &[u8], out: &mut [u8]) -> LogStep
    requires { (Within totals.records totals.rows) × (88 ≤ length out.old) }
    ensures { Made (step_of totals.records totals.rows bytes.now) out.old result out.new }
{
    if bytes.len() == 0 {
        return close(totals, None, out);
    }
    if totals.records == 1000 {
        return close(totals, Some(Refusal::RecordCount), out);
    }
    write_record(totals, bytes, out)
}
