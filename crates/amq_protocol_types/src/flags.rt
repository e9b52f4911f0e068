//! [`AMQPFlags`]: named booleans, packed eight to a byte as in AMQP's method arguments.
//! `parsing/flags.rt` and `generation/flags.rt` parse and write them.

ghost use Rattle.std.specs.Prelude.{◌≡◌, ◌<◌, ◌≤◌, ◌++◌, ◌∷◌, [], map, length, string_bytes, IfOk, OnOk, OnErr};
ghost use Rattle.amq_protocol_types.specs.Flags.{listed, flags_of, values_of, flag_named, number_of, pack, unpack};

pub mod laws;

use amqp_value_core::input::ParsableInput;
use amqp_value_core::types::Boolean;
use serde::{Deserialize, Serialize};
use std::alloc::{AllocError, Global};

/// Named booleans, in the order in which they were added. A name may occur more than once.
#[derive(Debug, PartialEq, Serialize, Deserialize, Drop)]
pub struct AMQPFlags {
    flags: Vec<(String, Boolean)>,
}

impl AMQPFlags {
    /// Makes an empty list of flags. Doesn't allocate.
    pub fn new_in(alloc: Global) -> Self
        ensures { flags_of result ≡ [] }
    {
        AMQPFlags {
            flags: Vec::new(alloc),
        }
    }

    /// Appends a flag, even if there is one of that name. If an allocation fails the flags are
    /// unchanged, and the name is dropped.
    pub fn add_flag(&mut self, name: String, flag: Boolean) -> Result<(), AllocError>
        ensures ok { OnOk result
            (flags_of self.new ≡ flags_of self.old ++ (string_bytes name, flag) ∷ []) }
        ensures err { OnErr result (flags_of self.new ≡ flags_of self.old) }
    {
        self.flags.push((name, flag))?;
        Ok(())
    }

    /// Returns the value of the first flag of that name, or `None` if there is no such flag.
    pub fn get_flag(&self, name: &str) -> Option<Boolean>
        ensures { result ≡ flag_named name.now (flags_of self.now) }
    {
        for (n, flag) in &self.flags {
            if n.as_str() == name {
                return Some(*flag);
            }
        }
        None
    }

    /// Packs the flags eight to a byte, the first one in the lowest bit (AMQP 0-9-1, section
    /// 4.2.5.2). Returns an error if an allocation fails. An empty list packs to no bytes, and
    /// doesn't allocate.
    pub fn get_bytes(&self, alloc: Global) -> Result<Vec<u8>, AllocError>
        ensures ok { IfOk result (λ bytes. bytes.items ≡ pack (values_of (flags_of self.now))) }
        ensures err { OnErr result (0 < length (flags_of self.now)) }
    {
        let mut bytes = Vec::new(alloc);
        for eight in self.flags.chunks(8) {
            bytes.push(byte_of(eight))?;
        }
        Ok(bytes)
    }

    /// Unpacks a flag for each name that has a bit, in order, the lowest bit of a byte first. Names
    /// without a bit are left out, and bits without a name ignored. Returns an error if an
    /// allocation fails; if there is no such name it doesn't allocate.
    pub fn from_bytes<I: ParsableInput>(
        alloc: Global,
        names: &[&str],
        bytes: I,
    ) -> Result<AMQPFlags, AllocError>
        ensures ok { IfOk result
            (λ flags. flags_of flags ≡ unpack (map (λ n. n.now) names.now) (I.bytes bytes)) }
        ensures err { OnErr result
            (0 < length (unpack (map (λ n. n.now) names.now) (I.bytes bytes))) }
    {
        let mut flags = AMQPFlags::new_in(alloc);
        for (n, name) in names.iter().enumerate() {
            if n / 8 >= bytes.input_len() {
                break;
            }
            let flag = (bytes.byte_at(n / 8) >> (n % 8)) % 2 == 1;
            flags.add_flag(String::from_str(alloc, name)?, flag)?;
        }
        Ok(flags)
    }

    /// Copies the flags and their names, or returns an error if an allocation fails. An empty list
    /// doesn't allocate.
    pub fn clone(&self, alloc: Global) -> Result<AMQPFlags, AllocError>
        ensures ok { IfOk result (λ copy. flags_of copy ≡ flags_of self.now) }
        ensures err { OnErr result (0 < length (flags_of self.now)) }
    {
        let mut copy = AMQPFlags::new_in(alloc);
        for (name, flag) in &self.flags {
            copy.add_flag(String::from_str(alloc, name.as_str())?, *flag)?;
        }
        Ok(copy)
    }

    /// Returns the flags, in order.
    pub fn as_slice(&self) -> &[(String, Boolean)]
        ensures { listed result.now ≡ flags_of self.now }
    {
        self.flags.as_slice()
    }
}

/// Packs at most eight flags into a byte, the first one in the lowest bit.
pub(crate) fn byte_of(flags: &[(String, Boolean)]) -> u8
    requires { length flags.now ≤ 8 }
    ensures { result ≡ number_of (values_of (listed flags.now)) }
{
    let mut byte = 0;
    for (i, (_, flag)) in flags.iter().enumerate() {
        if *flag {
            byte += 1 << i;
        }
    }
    byte
}
