// What the replay of a recording reports (R14.7), and a report as numbers (R14.9); what it means is in specs/, and what is proved of it in
// proofs/. The replay itself stands in the crate `replayer`.
#![tactic(auto)]

ghost use Rattle.std.specs.Prelude.{◌≡◌};
ghost use Rattle.recording.specs.Report.{reported};

// Items are counted from 0; `Same` has how many there are.
#[derive(Clone, Copy)]
pub enum Report {
    Same(usize),
    Differs(usize),
    BadItem(usize),
    BadState,
}

// A report as C is handed it (R14.9).
#[repr(C)]
#[derive(Clone, Copy)]
pub struct Reported {
    pub report: u64,
    pub item: u64,
}

impl From<Report> for Reported {
    ghost from_gives = { λ x y. y ≡ reported x };

    fn from(report: Report) -> Reported {
        let (report, item) = match report {
            Report::Same(n) => (0, n),
            Report::Differs(n) => (1, n),
            Report::BadItem(n) => (2, n),
            Report::BadState => (3, 0),
        };
        Reported {
            report,
            item: item as u64,
        }
    }
}
