//! Handles: what was opened, in memory that C keeps.
ghost use Rattle.std.specs.Prelude.{◌≡◌, ◌↔◌, Option, None, Some, IsSome, IfSome, IsTrue};
ghost use Rattle.dmix_c.specs.Channels.{channels_held};
ghost use Rattle.dmix_c.specs.Owned.{may_own};
ghost use Rattle.dmix_c.specs.declared.opened.Opened.{Opened};
ghost use Rattle.dmix_c.specs.contracts.opened.Opened.{the_row};

use crate::opened::Opened;
use std::alloc::Global;
use std::marker::Model;

/// A box as an address that names no type, or nothing. An export can't take a struct that names the type of what is in the
/// box.
#[repr(C)]
#[derive(Drop)]
pub struct Held {
    at: *mut u8,
    alloc: Global,
    pub ghost value: { Option Opened },
}

impl Model for Held {
    ghost also_owns = { λ h. may_own the_row h.alloc h.at h.value };
}

// What is in the box may go to another thread, and any thread may free it.
unsafe impl Send for Held {}

impl Held {
    /// Nothing.
    fn empty(alloc: Global) -> Held
        ensures { result.value ≡ None }
    {
        Held {
            at: std::ptr::null_mut(),
            alloc,
        }
    }

    /// The address of a box without its type.
    fn seal(opened: Box<Opened>) -> Held
        ensures { result.value ≡ Some opened.value }
    {
        let (at, alloc) = Box::into_raw_with_allocator(opened);
        Held {
            at: at as *mut u8,
            alloc,
        }
    }

    /// The box at the address.
    fn unseal(self) -> Box<Opened>
        requires { IsSome self.value }
        ensures { self.value ≡ Some result.value }
    {
        let Held { at, alloc } = self;
        unsafe { Box::from_raw(alloc, at as *mut Opened) }
    }
}

/// A handle: three words in the caller's memory (`dmix_ring_t`, `dmix_client_t`, `dmix_reader_t`, `dmix_card_t`), all zero while
/// it is closed. The third says how many samples a frame has, for the functions of the C header, which turn frames into
/// samples; it is 0 where no frames can be passed.
#[repr(C)]
#[derive(Drop)]
pub struct Handle {
    kind: u64,
    held: Held,
    channels: u64,
    ghost tied: { (kind ≡ 0) ↔ (held.value ≡ None) },
    ghost counted: { channels ≡ channels_held held.value },
}

// What goes from one thread to another.
fn crosses_threads<T: Send>(_thing: &T) {}

impl Handle {
    ghost use Rattle.dmix_c.specs.Stands.{stands_for};

    /// Whether the handle stands for something.
    pub(crate) fn is_open(&self) -> bool
        ensures { IsTrue result ↔ IsSome (stands_for self.now) }
    {
        self.kind != 0
    }

    /// Takes what the handle stands for. The handle is closed then.
    pub(crate) fn take(&mut self, alloc: Global) -> Option<Box<Opened>>
        ensures closed { stands_for self.new ≡ None }
        ensures value { IfSome result (λ opened. stands_for self.old ≡ Some opened.value) }
        ensures none { result ≡ None → stands_for self.old ≡ None }
    {
        let closed = Handle {
            kind: 0,
            held: Held::empty(alloc),
            channels: 0,
        };
        let Handle { kind, held, .. } = std::mem::replace(self, closed);
        if kind == 0 {
            return None;
        }
        Some(held.unseal())
    }

    /// Makes a closed handle stand for something.
    pub(crate) fn put(&mut self, opened: Box<Opened>)
        requires { stands_for self.old ≡ None }
        ensures { stands_for self.new ≡ Some opened.value }
    {
        let channels = opened.channels();
        let handle = Handle {
            kind: 1,
            held: Held::seal(opened),
            channels,
        };
        // C may pass it to another thread.
        crosses_threads(&handle);
        *self = handle;
    }
}
