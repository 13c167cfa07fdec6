//! The program `hirscan`: a query and a haystack on standard input, the spans on standard output.
//! Its status is 0 if the spans are listed, 1 if the input is rejected or a search gave up at a quit byte, and 2 after a fault,
//! which standard error reports in one line. Arguments are ignored.
#![tactic(auto)]

ghost use Rattle.std.specs.Prelude.{◌≡◌, Ok, IsErr};
ghost use Rattle.hirscan.specs.declared.ending.Ending.TheVariants.{Listed, Quit, Refused};

use hirscan::{Ending, RunError, run};
use std::process::ExitCode;

/// The status with which the program ends.
fn status(ended: Result<Ending, RunError>) -> u8
    ensures listed { ended ≡ Ok Listed → result ≡ 0 }
    ensures quit { ended ≡ Ok Quit → result ≡ 1 }
    ensures refused { ended ≡ Ok Refused → result ≡ 1 }
    ensures fault { IsErr ended → result ≡ 2 }
{
    match ended {
        Ok(Ending::Listed) => 0,
        Ok(Ending::Quit | Ending::Refused) => 1,
        Err(_) => 2,
    }
}

fn main(rt: HostRuntime) -> ExitCode {
    let mut reader = rt.stdin();
    let mut writer = rt.stdout();
    let ended = run(rt.alloc(), &mut reader, &mut writer);
    if let Err(fault) = ended {
        let _ = eprintln!(rt; "hirscan: {fault}");
    }
    ExitCode::from(status(ended))
}
