//! What is fixed beside the frames of a transaction, and what a frame is started with.

use crate::accounts::Accounts;
use crate::call::Setting;
use program_cache::Programs;
use sol_base::{Key, Meta};
use std::alloc::Global;
use std::marker::Model;

/// What is fixed beside the frames of a transaction: its programs, its setting, its keys, and where
/// memory comes from.
#[derive(Drop)]
pub struct Context<'a> {
    pub alloc: Global,
    pub programs: &'a Programs,
    pub setting: Setting,
    pub keys: &'a [Key],
}

impl<'a> Model for Context<'a> {
    ghost use Rattle.invoke_engine.specs.Invoked.{Known};

    ghost Value = { Known };

    ghost view = { λ context. record {
      programs = context.programs.now;
      setting = context.setting;
      keys = context.keys.now;
    } };
}

/// A call of a program, with the accounts that it finds and the units that it may take. The lists of
/// the call are lent: a frame without a machine needs none of its own.
#[derive(Drop)]
pub struct Invocation<'a> {
    /// The program's place among the transaction's keys.
    pub program: u8,
    pub metas: &'a [Meta],
    pub input: &'a [u8],
    pub accounts: Accounts,
    pub units: u64,
}

impl<'a> Model for Invocation<'a> {
    ghost use Rattle.invoke_engine.specs.Invoked.{Invoked};

    ghost Value = { Invoked };

    ghost view = { λ invocation. record {
      call = record {
        program = invocation.program;
        metas = invocation.metas.now;
        input = invocation.input.now;
      };
      accounts = invocation.accounts;
      units = invocation.units;
    } };
}
