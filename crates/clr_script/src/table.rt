//! The table of commands. A row has the word of a command, what its reader finds in the words behind it, and the
//! command with that; or the word, and what is read of the words behind it.

// What is read by the row with this word. `None` where no row has it, or where other words than those wanted stand
// behind it.
macro_rules! by_row {
    ($word:ident; $($rows:tt)*) => {
        by_row! { $word, None; $($rows)* }
    };
    ($word:ident, $other:expr;) => {
        $other
    };
    ($word:ident, $other:expr; $text:literal => $read:expr, $($rows:tt)*) => {
        if is_word($word, $text) {
            $read
        } else {
            by_row! { $word, $other; $($rows)* }
        }
    };
    ($word:ident, $other:expr; $text:literal: $found:pat = $reader:expr => $command:expr, $($rows:tt)*) => {
        if is_word($word, $text) {
            match $reader {
                Some($found) => Some($command),
                None => None,
            }
        } else {
            by_row! { $word, $other; $($rows)* }
        }
    };
}

// The lines that are no thread's.
macro_rules! other_rows {
    ($word:ident, $rest:ident) => {
        by_row! { $word, read_look($word, $rest);
            b"type" => read_define($rest),
            b"gcwhere": a = read_one_address($rest) => Command::GcWhere { a },
            b"dumpobj": a = read_one_address($rest) => Command::DumpObj { a },
            b"gcroot" => read_roots($rest),
            b"dumpheap": filter = read_filter($rest) => Command::DumpHeap { filter },
            b"eeheap": () = read_gc($rest) => Command::EeHeap,
            b"verifyheap": () = no_word($rest) => Command::VerifyHeap,
            b"gchandles" => read_handles($rest),
            b"finalizequeue": () = no_word($rest) => Command::FinalizeQueue,
            b"objsize": a = read_one_address($rest) => Command::ObjSize { a },
            b"background" => read_marking($rest),
        }
    };
}

// The lines that look at objects, types and generations.
macro_rules! look_rows {
    ($word:ident, $rest:ident) => {
        by_row! { $word;
            b"dumparray": (start, length, a) = read_slots($rest) => Command::Look {
                look: Look::DumpArray { start, length, a },
            },
            b"dumpmt": mt = read_one_address($rest) => Command::Look { look: Look::DumpMt { mt } },
            b"pathto": (a, b) = read_addresses($rest) => Command::Look { look: Look::PathTo { a, b } },
            b"retained": a = read_one_address($rest) => Command::Look { look: Look::Retained { a } },
            b"gcheapstat": unrooted = read_unrooted($rest) => Command::Look { look: Look::GcHeapStat { unrooted } },
            b"listnearobj": a = read_one_address($rest) => Command::Look { look: Look::ListNearObj { a } },
            b"ephrefs": () = no_word($rest) => Command::Look { look: Look::EphRefs },
        }
    };
}

// The lines of a thread on objects, by their verbs.
macro_rules! thread_rows {
    ($t:ident, $verb:ident, $rest:ident) => {
        by_row! { $verb, read_rare($t, $verb, $rest);
            b"get": (to, from, index) = read_load($rest) => Command::Get { t: $t, to, from, index },
            b"set": (into, index, from) = read_store($rest) => Command::Set { t: $t, into, index, from },
            b"put": (into, index, value) = read_number_store($rest) => Command::Put { t: $t, into, index, value },
            b"new": (local, name, len) = read_birth($rest) => Command::New { t: $t, local, name, len },
            b"read": (from, index) = read_local_and_number($rest) => Command::Read { t: $t, from, index },
            b"copy": (to, from) = read_locals($rest) => Command::Copy { t: $t, to, from },
            b"null": local = read_one_local($rest) => Command::Clear { t: $t, local },
        }
    };
}

// Those on collections and on other threads.
macro_rules! rare_rows {
    ($t:ident, $verb:ident, $rest:ident) => {
        by_row! { $verb, read_rooted($t, $verb, $rest);
            b"begin" => read_begin($t, $rest),
            b"step": () = no_word($rest) => Command::Step { t: $t },
            b"collect": (g, how) = read_collect($rest) => Command::Collect { t: $t, g, how },
            b"suspend": () = no_word($rest) => Command::Suspend { t: $t },
            b"resume": () = no_word($rest) => Command::Resume { t: $t },
        }
    };
}

// Those on handles and finalisers.
macro_rules! rooted_rows {
    ($t:ident, $verb:ident, $rest:ident) => {
        by_row! { $verb, read_seldom($t, $verb, $rest);
            b"handle": (kind, local, second) = read_create($rest) => Command::Handle { t: $t, kind, local, second },
            b"fetch": (to, h) = read_local_and_handle($rest) => Command::Fetch { t: $t, to, h },
            b"second": (to, h) = read_local_and_handle($rest) => Command::Second { t: $t, to, h },
            b"free": h = read_one_handle($rest) => Command::Free { t: $t, h },
            b"finalizer": to = read_one_local($rest) => Command::Finalizer { t: $t, to },
            b"suppress": local = read_one_local($rest) => Command::Suppress { t: $t, local },
            b"reregister": local = read_one_local($rest) => Command::Reregister { t: $t, local },
        }
    };
}

// Those on pinned segments, background collections and the large heap.
macro_rules! seldom_rows {
    ($t:ident, $verb:ident, $rest:ident) => {
        by_row! { $verb;
            b"new-pinned": (local, name, len) = read_pinned($rest) => Command::NewPinned { t: $t, local, name, len },
            b"background" => read_pause($t, $rest),
            b"compact-large": () = read_once($rest) => Command::CompactLarge { t: $t },
        }
    };
}

// What a thread begins, by the word behind `begin`.
macro_rules! begin_rows {
    ($t:ident, $verb:ident, $rest:ident) => {
        by_row! { $verb;
            b"set": (into, index, from) = read_store($rest) => Command::BeginSet { t: $t, into, index, from },
            b"new": (local, name, len) = read_birth($rest) => Command::BeginNew { t: $t, local, name, len },
        }
    };
}

pub(crate) use begin_rows;
pub(crate) use by_row;
pub(crate) use look_rows;
pub(crate) use other_rows;
pub(crate) use rare_rows;
pub(crate) use rooted_rows;
pub(crate) use seldom_rows;
pub(crate) use thread_rows;
