//! The program `ids`: makes the real source, sink, disk and gate, and hands them to the top call.
#![tactic(auto)]

use descriptors::take_standard_descriptors;
use ids_base::status::Status;
use ids_outside::{FileDisk, OpenGate, StdSink, StdSource};
use ids_server::server::server;
use std::io;
use std::process::ExitCode;

mod descriptors;
#[cfg(test)]
mod disk_tests;
#[cfg(test)]
mod file_tests;
#[cfg(test)]
mod random_tests;
#[cfg(test)]
mod runs;
#[cfg(test)]
mod script_tests;
#[cfg(test)]
mod stop_tests;

// The words behind the program's name.
fn words_of(rt: &HostRuntime) -> io::Result<Vec<String>> {
    let mut words = Vec::new(rt.alloc());
    for word in std::env::args(rt)?.skip(1) {
        words.push(word)?;
    }
    Ok(words)
}

fn main(rt: HostRuntime) -> ExitCode {
    if take_standard_descriptors(&rt).is_err() {
        let _ = println!(rt; "ids: 3 disk fault");
        return ExitCode::from(Status::DiskFault.number());
    }
    let words = match words_of(&rt) {
        Ok(words) => words,
        // A word that is not UTF-8 is no command.
        Err(error) if error.kind() == io::ErrorKind::InvalidData => {
            let _ = println!(rt; "ids: 1 bad words");
            return ExitCode::from(Status::BadWords.number());
        }
        Err(_) => {
            let _ = println!(rt; "ids: 4 memory");
            return ExitCode::from(Status::Memory.number());
        }
    };
    let mut source = StdSource::new(&rt, rt.stdin());
    let sink = StdSink::new(&rt, rt.stdout());
    let disk = FileDisk::new(&rt);
    let ended = server(rt.alloc(), &words, &mut source, disk, sink, &OpenGate);
    ExitCode::from(ended.status.number())
}
