// What a replay met, counted, in words.
ghost use Rattle.std.specs.Prelude.{◌≡◌, not, ◌==◌, take, count_by};
ghost use Rattle.records.specs.Notes.{kinds};

use records::notes::{HALTS, KINDS, OUTCOMES, PLACES, VERDICTS};

// How many opcodes were met: their counts stand in front of all others.
fn opcodes_met(counts: &[u32; PLACES]) -> usize
    ensures { result ≡ count_by (λ n. not (n == 0)) (take kinds counts.now) }
{
    counts[..KINDS].iter().filter(|n| **n != 0).count()
}

// Each name belongs to the count at its place; one that is empty has none.
fn counted(rt: &HostRuntime, names: &[&str], mark: &str, counts: &[u32]) {
    for (name, n) in names.iter().zip(counts) {
        if !name.is_empty() {
            println!(rt; "{name}{mark}{n}").is_ok();
        }
    }
}

fn report_outcomes(rt: &HostRuntime, counts: &[u32]) {
    let names = [
        "outcome Normal",
        "outcome InfiniteLoop",
        "outcome Halting",
        "outcome RunningHDMA",
        "outcome Stopped",
        "outcome Breakpoint",
        "outcome nothing run",
        "",
        "outcome RunningInterrupt 0",
        "outcome RunningInterrupt 1",
        "outcome RunningInterrupt 2",
        "outcome RunningInterrupt 3",
        "outcome RunningInterrupt 4",
        "",
        "",
        "",
        "",
        "outcome refusal 1",
        "outcome refusal 2",
        "outcome refusal 3",
    ];
    counted(rt, &names, ": ", counts);
}

fn report_verdicts(rt: &HostRuntime, counts: &[u32]) {
    let names = [
        "verdict passes",
        "verdict 1",
        "",
        "",
        "verdict 4",
        "verdict 5",
        "verdict 6",
        "verdict 7",
        "verdict 8",
        "verdict 9",
        "verdict 10",
    ];
    counted(rt, &names, ": ", counts);
}

pub fn report(rt: &HostRuntime, counts: &[u32; PLACES]) {
    counted(rt, &["steps", "runs", "windows"], " ", &counts[KINDS..]);
    let met = opcodes_met(counts);
    println!(rt; "opcodes met, of 512: {met}").is_ok();
    let modes = [
        "from NotHalting",
        "from HaltRunInterrupt",
        "from HaltNoRunInterrupt",
        "from HaltBug",
    ];
    counted(rt, &modes, ": ", &counts[HALTS..]);
    report_outcomes(rt, &counts[OUTCOMES..]);
    report_verdicts(rt, &counts[VERDICTS..]);
}
