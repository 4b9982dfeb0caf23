// The program: the words, the devices of the system, and the one call that does all.
//
// A word that isn't UTF-8 is handed in as the empty text. Nothing goes to standard error. Want of memory here ends with
// status 6, as it does inside the call.
#![tactic(auto)]

mod words;

use io_ports::{StdFiles, StdSink, StdSource};
use recompile::{Advisor, Plain};
use self_debugger::selfdb;
use std::io;
use std::process::ExitCode;
use words::words;

fn main(rt: HostRuntime) -> ExitCode {
    let alloc = rt.alloc();
    let Ok(words) = words(&rt, alloc) else {
        return ExitCode::from(6);
    };
    // The advisors that the program hands in: three that advise nothing.
    let mut advisors: Vec<Box<dyn Advisor + Drop>> = Vec::new(alloc);
    for _ in 0..3 {
        let Ok(advisor) = Box::new(alloc, Plain) else {
            return ExitCode::from(6);
        };
        let Ok(()) = advisors.push(advisor) else {
            return ExitCode::from(6);
        };
    }
    let world = match words.get(1) {
        Some(word) => word.as_str(),
        None => "",
    };
    let mut files = StdFiles::new(&rt, world);
    let mut script = StdSource::new(rt.reader());
    let mut out = StdSink::new(io::writer(&rt));
    let ended = selfdb(alloc, &words, &mut files, &mut script, &mut out, advisors);
    ExitCode::from(ended.status)
}
