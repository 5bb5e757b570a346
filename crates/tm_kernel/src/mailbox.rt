//! Boxes of messages. After they are made no call takes memory.

ghost use Rattle.std.specs.Prelude.{◌≡◌, [], ◌++◌, ◌∷◌, drop, length, map, replicate, slice_get, slice_set, Some, Option, List, Result, IfOk, ◌==◌, if◌then◌else◌, nat_lt};
ghost use Rattle.tm_kernel.specs.Mailboxes.{Message, send_status, put_last, first_message, without_first};

use circular_buffer::HeapCircularBuffer;
use std::alloc::{AllocError, Global};
use std::marker::Model;
use tm_services::{E_OK, E_OS_ID, E_OS_LIMIT, E_OS_NOFUNC};

/// One box: messages of four words, the oldest first, and room for a number of them.
#[derive(Debug, Drop)]
pub struct Mailbox {
    queue: HeapCircularBuffer<[u32; 4]>,
}

impl Model for Mailbox {
    ghost use Rattle.tm_kernel.specs.Mailboxes.{MailboxView};

    ghost Value = { MailboxView };

    ghost view = { λ b. record { messages = b.queue.items; capacity = b.queue.capacity } };
}

impl Mailbox {
    /// An empty box.
    fn new(alloc: Global, capacity: u8) -> Result<Self, AllocError>
        ensures { IfOk result (λ b. b ≡ record { messages = []; capacity = capacity }) }
    {
        Ok(Mailbox {
            queue: HeapCircularBuffer::with_capacity(alloc, usize::from(capacity))?,
        })
    }

    /// Puts a message last, and says whether there was room for it.
    fn push(&mut self, message: [u32; 4]) -> bool
        ensures room { result ≡ nat_lt (length self.old.messages) self.old.capacity }
        ensures pushed { self.new ≡ (if result then record self.old { messages = self.old.messages ++ message ∷ [] } else self.old) }
    {
        self.queue.try_push_back(message).is_ok()
    }

    /// Takes out the first message.
    fn pop(&mut self) -> Option<[u32; 4]>
        ensures first { result ≡ slice_get self.old.messages 0 }
        ensures rest { self.new ≡ record self.old { messages = drop 1 self.old.messages } }
    {
        self.queue.pop_front()
    }

    /// Becomes a copy of a box of the same capacity.
    fn copy_from(&mut self, other: &Mailbox)
        requires { self.old.capacity ≡ other.now.capacity }
        ensures { self.new ≡ other.now }
    {
        prove!(other.queue.len() <= self.queue.capacity());
        let (front, back) = other.queue.as_slices();
        self.queue.clear();
        self.queue.extend_from_slice(front);
        self.queue.extend_from_slice(back);
    }
}

/// All boxes of a kernel.
#[derive(Debug, Drop)]
pub struct Mailboxes {
    boxes: Vec<Mailbox>,
}

impl Model for Mailboxes {
    ghost use Rattle.tm_kernel.specs.Mailboxes.{MailboxesView, boxes_of};

    ghost Value = { MailboxesView };

    ghost view = { λ m. boxes_of m.boxes.items };
}

impl Mailboxes {
    /// Empty boxes of these capacities.
    pub fn new(alloc: Global, capacities: &[u8]) -> Result<Self, AllocError>
        ensures { IfOk result (λ m. m ≡ record { messages = replicate (length capacities.now) []; capacities = capacities.now }) }
    {
        let mut boxes = Vec::new(alloc);
        for capacity in capacities {
            boxes.push(Mailbox::new(alloc, *capacity)?)?;
        }
        Ok(Mailboxes { boxes })
    }

    /// Puts a message last in a box. The status says whether there is such a box, and room in it.
    pub fn send(&mut self, to: u32, message: [u32; 4]) -> u32
        ensures status { result ≡ send_status self.old.capacities to (slice_get self.old.messages to) }
        ensures sent { self.new ≡ (if result == E_OK then record self.old { messages = put_last self.old.messages to message } else self.old) }
    {
        let index = to as usize;
        if index >= self.boxes.len() {
            return E_OS_ID;
        }
        if self.boxes[index].push(message) {
            E_OK
        } else {
            E_OS_LIMIT
        }
    }

    /// Takes out the first message of a box, or answers the status that says why there is none.
    pub fn receive(&mut self, from: u32) -> Result<[u32; 4], u32>
        ensures message { result ≡ first_message (slice_get self.old.messages from) }
        ensures taken { self.new ≡ record self.old { messages = without_first self.old.messages from (slice_get self.old.messages from) } }
    {
        let index = from as usize;
        if index >= self.boxes.len() {
            return Err(E_OS_ID);
        }
        self.boxes[index].pop().ok_or(E_OS_NOFUNC)
    }

    /// Becomes a copy of boxes of the same capacities.
    pub fn copy_from(&mut self, other: &Mailboxes)
        requires { self.old.capacities ≡ other.now.capacities }
        ensures { self.new ≡ other.now }
    {
        for index in 0..other.boxes.len() {
            self.boxes[index].copy_from(&other.boxes[index]);
        }
    }
}
