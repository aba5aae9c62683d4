// The lines of a report.
ghost use Rattle.std.specs.Prelude.{Some};
ghost use Rattle.report.specs.Lines.{fault_line, slack_text, arcs_text, sense_line, net_line, net_lines, timed_lines};

use crate::areas::Timed;
use std::fmt;
use timing::answers::Answer;
use timing::entries::figure;
use units::refusals::Refusal;

// The one line of a file that is refused.
#[derive(Clone, Copy)]
pub struct FaultLine {
    pub offset: usize,
    pub refusal: Refusal,
}

impl fmt::Display for FaultLine {
    ghost output = { λ line. Some (fault_line line.offset line.refusal) };

    fn fmt<W: fmt::Write>(&self, f: &mut fmt::Formatter<W>) -> fmt::Result {
        let Refusal { number, place, .. } = self.refusal;
        writeln!(f, "fault {} {number} {place}", self.offset)
    }
}

// A slack as its area has it, or `-` where there is none.
#[derive(Clone, Copy)]
struct Slack(i32);

impl fmt::Display for Slack {
    ghost output = { λ slack. Some (slack_text slack.0) };

    fn fmt<W: fmt::Write>(&self, f: &mut fmt::Formatter<W>) -> fmt::Result {
        match figure(self.0) {
            Some(slack) => write!(f, "{slack}"),
            None => write!(f, "-"),
        }
    }
}

// The arcs of a path in order.
#[derive(Clone, Copy)]
struct Arcs<'a>(&'a [u16]);

impl fmt::Display for Arcs<'_> {
    ghost output = { λ arcs. Some (arcs_text arcs.0.now) };

    fn fmt<W: fmt::Write>(&self, f: &mut fmt::Formatter<W>) -> fmt::Result {
        for arc in self.0 {
            write!(f, " {arc}")?;
        }
        Ok(())
    }
}

// A sense with its worst slack and path, or that it has no path.
#[derive(Clone, Copy)]
struct SenseLine<'a> {
    sense: &'a str,
    timed: &'a Timed,
}

impl fmt::Display for SenseLine<'_> {
    ghost output = { λ line. Some (sense_line line.sense.now line.timed.now) };

    fn fmt<W: fmt::Write>(&self, f: &mut fmt::Formatter<W>) -> fmt::Result {
        let sense = self.sense;
        let Answer {
            worst_slack,
            arcs,
            ..
        } = self.timed.answer;
        let Some(slack) = figure(worst_slack) else {
            return writeln!(f, "{sense} none");
        };
        let path = Arcs(&self.timed.path);
        writeln!(f, "{sense} {slack} {arcs}{path}")
    }
}

// A net with its late and its early slack.
#[derive(Clone, Copy)]
struct NetLine {
    net: usize,
    late: Slack,
    early: Slack,
}

impl fmt::Display for NetLine {
    ghost output = { λ line. Some (net_line line.net line.late.0 line.early.0) };

    fn fmt<W: fmt::Write>(&self, f: &mut fmt::Formatter<W>) -> fmt::Result {
        writeln!(f, "net {} {} {}", self.net, self.late, self.early)
    }
}

// The nets by number, each with its slacks from the areas of the two timings.
#[derive(Clone, Copy)]
struct NetLines<'a> {
    late: &'a [i32],
    early: &'a [i32],
}

impl fmt::Display for NetLines<'_> {
    ghost output = { λ lines. Some (net_lines lines.late.now lines.early.now) };

    fn fmt<W: fmt::Write>(&self, f: &mut fmt::Formatter<W>) -> fmt::Result {
        for (net, (late, early)) in self.late.iter().zip(self.early.iter()).enumerate() {
            let line = NetLine {
                net,
                late: Slack(*late),
                early: Slack(*early),
            };
            write!(f, "{line}")?;
        }
        Ok(())
    }
}

// A block timed in both senses: a line for each sense, and one for each net.
#[derive(Drop)]
pub struct TimedBlock {
    pub late: Timed,
    pub early: Timed,
}

impl fmt::Display for TimedBlock {
    ghost output = { λ block. Some (timed_lines block) };

    fn fmt<W: fmt::Write>(&self, f: &mut fmt::Formatter<W>) -> fmt::Result {
        let late = SenseLine {
            sense: "late",
            timed: &self.late,
        };
        let early = SenseLine {
            sense: "early",
            timed: &self.early,
        };
        let nets = NetLines {
            late: &self.late.slacks,
            early: &self.early.slacks,
        };
        write!(f, "{late}{early}{nets}")
    }
}
