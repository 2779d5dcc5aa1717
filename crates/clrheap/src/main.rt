//! The segmented, generational heap of the .NET runtime, which a script on standard input drives.
//! The replies go to standard output, and the exit status says how the command ended. Nothing goes to standard error,
//! unless that is a terminal: a person there is told in one line why a command didn't answer.
#![tactic(auto)]

mod advice;
mod replies;

use crate::advice::{advice, no_script};
use crate::replies::Replies;
use clr_run::{Arguments, ReadAdapter, Status, WriteAdapter, run};
use std::env;
use std::fs::File;
use std::io::{self, ErrorKind, IsTerminal};
use std::process::ExitCode;

/// The arguments of the command line. One that isn't UTF-8 is no argument of a command.
fn arguments(rt: &HostRuntime) -> Result<Arguments, Status> {
    let args = match env::args(rt) {
        Ok(args) => args,
        Err(error) if error.kind() == ErrorKind::OutOfMemory => return Err(Status::Memory),
        Err(_) => return Err(Status::Usage),
    };
    let Ok(mut arguments) = Arguments::new(rt.alloc()) else {
        return Err(Status::Memory);
    };
    for argument in args.skip(1) {
        if arguments.push(argument.as_str()).is_err() {
            return Err(Status::Memory);
        }
    }
    Ok(arguments)
}

/// Runs the command that the arguments say over standard input and standard output, and tells how it ended. The image
/// of `open` is in the file whose path the arguments say. Where a person is to be told why there is no answer, that is
/// written to standard error.
fn command(rt: &HostRuntime, arguments: &Arguments, tells: bool) -> Status {
    let Ok(path) = arguments.image_path() else {
        return Status::Memory;
    };
    let mut image = ReadAdapter::opened(opened_file(rt, path));
    let mut source = ReadAdapter::new(rt.reader());
    let mut replies = Replies::new(io::writer(rt), tells);
    let mut sink = WriteAdapter::new(&mut replies);
    let status = run(
        rt.alloc(),
        arguments,
        &mut image,
        &mut source,
        &mut sink,
        &mut None,
    );
    if replies.are_refusals() {
        tell(rt, no_script(rt.alloc()));
    }
    status
}

/// The file at this path. There is none where there is no path, or where it can't be opened: reads of the image fail
/// then.
fn opened_file(rt: &HostRuntime, path: Option<&str>) -> Option<File> {
    File::open(rt, path?).ok()
}

/// Writes a line to standard error, where there is one to write.
fn tell(rt: &HostRuntime, text: Option<String>) {
    if let Some(text) = text {
        let _ = rt.eprintln(text);
    }
}

/// Ends with the code of the command's status.
fn main(rt: HostRuntime) -> ExitCode {
    let tells = rt.stderr().is_terminal();
    let arguments = match arguments(&rt) {
        Ok(arguments) => arguments,
        Err(status) => return ExitCode::from(status.code()),
    };
    let status = command(&rt, &arguments, tells);
    if tells {
        tell(&rt, advice(rt.alloc(), &arguments, status));
    }
    ExitCode::from(status.code())
}
