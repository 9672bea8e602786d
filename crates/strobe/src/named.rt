// The twenty operations by name, in strobe-rs's order.
ghost use Rattle.std.specs.Prelude.{false, replicate};
ghost use Rattle.strobe.specs.Flags.{RATCHET, META_RATCHET, SEND_ENC, META_SEND_ENC, RECV_ENC, META_RECV_ENC, SEND_MAC, META_SEND_MAC, RECV_MAC, META_RECV_MAC, PRF, META_PRF, SEND_CLR, META_SEND_CLR, RECV_CLR, META_RECV_CLR, AD, META_AD, KEY, META_KEY};
ghost use Rattle.strobe.specs.Session.{Calls};

use crate::flags::Flags;
use crate::session::{Outcome, Session};

impl Session {
    // Whether a MAC is the other end's. A wrong one is an answer, MacUnequal, and the session goes on with it.
    pub fn recv_mac(self, mac: &[u8]) -> Outcome
        ensures { Calls self RECV_MAC false mac.now result mac.now }
    {
        self.generalized_recv_mac(Flags::RECV_MAC, false, mac)
    }

    pub fn meta_recv_mac(self, mac: &[u8]) -> Outcome
        ensures { Calls self META_RECV_MAC false mac.now result mac.now }
    {
        self.generalized_recv_mac(Flags::META_RECV_MAC, false, mac)
    }

    // Zeroes so many bytes of the state, so that what came before can't be computed back.
    pub fn ratchet(self, count: usize, more: bool) -> Outcome
        ensures { Calls self RATCHET more (replicate count 0) result (replicate count 0) }
    {
        self.generalized_ratchet(Flags::RATCHET, more, count)
    }

    pub fn meta_ratchet(self, count: usize, more: bool) -> Outcome
        ensures { Calls self META_RATCHET more (replicate count 0) result (replicate count 0) }
    {
        self.generalized_ratchet(Flags::META_RATCHET, more, count)
    }

    // An encrypted message goes out.
    pub fn send_enc(self, buf: &mut [u8], more: bool) -> Outcome
        ensures { Calls self SEND_ENC more buf.old result buf.new }
    {
        self.operate(Flags::SEND_ENC, more, buf)
    }

    pub fn meta_send_enc(self, buf: &mut [u8], more: bool) -> Outcome
        ensures { Calls self META_SEND_ENC more buf.old result buf.new }
    {
        self.operate(Flags::META_SEND_ENC, more, buf)
    }

    // An encrypted message comes in.
    pub fn recv_enc(self, buf: &mut [u8], more: bool) -> Outcome
        ensures { Calls self RECV_ENC more buf.old result buf.new }
    {
        self.operate(Flags::RECV_ENC, more, buf)
    }

    pub fn meta_recv_enc(self, buf: &mut [u8], more: bool) -> Outcome
        ensures { Calls self META_RECV_ENC more buf.old result buf.new }
    {
        self.operate(Flags::META_RECV_ENC, more, buf)
    }

    // A MAC of the state goes out; what the buffer held is of no account.
    pub fn send_mac(self, buf: &mut [u8], more: bool) -> Outcome
        ensures { Calls self SEND_MAC more buf.old result buf.new }
    {
        self.operate(Flags::SEND_MAC, more, buf)
    }

    pub fn meta_send_mac(self, buf: &mut [u8], more: bool) -> Outcome
        ensures { Calls self META_SEND_MAC more buf.old result buf.new }
    {
        self.operate(Flags::META_SEND_MAC, more, buf)
    }

    // Pseudorandom bytes; what the buffer held is of no account.
    pub fn prf(self, buf: &mut [u8], more: bool) -> Outcome
        ensures { Calls self PRF more buf.old result buf.new }
    {
        self.operate(Flags::PRF, more, buf)
    }

    pub fn meta_prf(self, buf: &mut [u8], more: bool) -> Outcome
        ensures { Calls self META_PRF more buf.old result buf.new }
    {
        self.operate(Flags::META_PRF, more, buf)
    }

    // A plaintext message goes out.
    pub fn send_clr(self, bytes: &[u8], more: bool) -> Outcome
        ensures { Calls self SEND_CLR more bytes.now result bytes.now }
    {
        self.operate_no_mutate(Flags::SEND_CLR, more, bytes)
    }

    pub fn meta_send_clr(self, bytes: &[u8], more: bool) -> Outcome
        ensures { Calls self META_SEND_CLR more bytes.now result bytes.now }
    {
        self.operate_no_mutate(Flags::META_SEND_CLR, more, bytes)
    }

    // A plaintext message comes in.
    pub fn recv_clr(self, bytes: &[u8], more: bool) -> Outcome
        ensures { Calls self RECV_CLR more bytes.now result bytes.now }
    {
        self.operate_no_mutate(Flags::RECV_CLR, more, bytes)
    }

    pub fn meta_recv_clr(self, bytes: &[u8], more: bool) -> Outcome
        ensures { Calls self META_RECV_CLR more bytes.now result bytes.now }
    {
        self.operate_no_mutate(Flags::META_RECV_CLR, more, bytes)
    }

    // Associated data.
    pub fn ad(self, bytes: &[u8], more: bool) -> Outcome
        ensures { Calls self AD more bytes.now result bytes.now }
    {
        self.operate_no_mutate(Flags::AD, more, bytes)
    }

    pub fn meta_ad(self, bytes: &[u8], more: bool) -> Outcome
        ensures { Calls self META_AD more bytes.now result bytes.now }
    {
        self.operate_no_mutate(Flags::META_AD, more, bytes)
    }

    // A key.
    pub fn key(self, bytes: &[u8], more: bool) -> Outcome
        ensures { Calls self KEY more bytes.now result bytes.now }
    {
        self.operate_no_mutate(Flags::KEY, more, bytes)
    }

    pub fn meta_key(self, bytes: &[u8], more: bool) -> Outcome
        ensures { Calls self META_KEY more bytes.now result bytes.now }
    {
        self.operate_no_mutate(Flags::META_KEY, more, bytes)
    }
}
