//! What a person at a terminal is told where a command didn't answer.
use clr_run::{Arguments, Status};
use std::alloc::Global;

/// The words of a longer command line aren't looked at for what is wrong with them.
const LOOKED_AT: usize = 64;

/// One line that says why a command ended with this status, without a line feed. There is none for `Done` and
/// `WriteFault`, nor where there is no memory for it.
pub fn advice(alloc: Global, arguments: &Arguments, status: Status) -> Option<String> {
    match status {
        Status::Done | Status::WriteFault => None,
        Status::Usage => usage(alloc, arguments),
        Status::ReadFault => read_fault(alloc, arguments),
        Status::Memory => format!(in alloc; "clrheap: there was no memory for it").ok(),
        Status::TooMuch => format!(in alloc;
            "clrheap: a script has at most 268435456 bytes, and an image at most 2147483648"
        ).ok(),
        Status::BadImage => format!(in alloc;
            "clrheap: that is no image to look at or to go on from: the line above has the offset of what is wrong"
        ).ok(),
    }
}

/// The line for a script of which each line was refused as `syntax`.
pub fn no_script(alloc: Global) -> Option<String> {
    format!(in alloc;
        "clrheap: each line was refused as syntax: is it a script, with lines that end with a line feed alone?"
    ).ok()
}

// Which words aren't lawful, where leaving them out helps, and the commands.
fn usage(alloc: Global, arguments: &Arguments) -> Option<String> {
    let commands = "commands are run, soak SEED N, image, inspect, migrate, open IMAGE";
    match misfit(alloc, arguments) {
        Some(words) => format!(in alloc; "clrheap: {words} isn't lawful here; {commands}").ok(),
        None => format!(in alloc; "clrheap: the words say no command; {commands}").ok(),
    }
}

// Which file or stream couldn't be read.
fn read_fault(alloc: Global, arguments: &Arguments) -> Option<String> {
    match arguments.image_path() {
        Ok(Some(path)) => {
            format!(in alloc; "clrheap: {path} or standard input couldn't be read").ok()
        }
        _ => format!(in alloc; "clrheap: standard input couldn't be read").ok(),
    }
}

// The first word behind the command's name, or two words, without which the others say a command.
fn misfit(alloc: Global, arguments: &Arguments) -> Option<String> {
    for i in 1..arguments.count().min(LOOKED_AT) {
        if says_without(alloc, arguments, i, 1) {
            return String::from_str(alloc, arguments.get(i)).ok();
        }
        if i + 1 < arguments.count() && says_without(alloc, arguments, i, 2) {
            let (option, number) = (arguments.get(i), arguments.get(i + 1));
            return format!(in alloc; "{option} {number}").ok();
        }
    }
    None
}

// Whether the arguments say a command without the `width` words from number `from` on.
fn says_without(alloc: Global, arguments: &Arguments, from: usize, width: usize) -> bool {
    let Some(others) = without(alloc, arguments, from, width) else {
        return false;
    };
    matches!(others.command(), Ok(Some(_)))
}

// The arguments without the `width` words from number `from` on.
fn without(alloc: Global, arguments: &Arguments, from: usize, width: usize) -> Option<Arguments> {
    let mut others = Arguments::new(alloc).ok()?;
    for i in 0..arguments.count() {
        if i < from || i - from >= width {
            others.push(arguments.get(i)).ok()?;
        }
    }
    Some(others)
}
