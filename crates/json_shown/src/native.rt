//! Instructions by name: those of the system, compute budget and loader programs with their fields.
use json_parts::hex_value;
use message_codec::Instruction;
use serde_json::{Map, Value, put};
use sol_base::{COMPUTE_BUDGET_PROGRAM, Key, LOADER_PROGRAM, SYSTEM_PROGRAM};
use std::alloc::{AllocError, Global};
use std::str;

/// How a field is in the data of an instruction.
#[derive(Clone, Copy)]
enum Kind {
    /// A number of four bytes.
    Short,
    /// A number of eight bytes.
    Long,
    Key,
    /// A text behind its length.
    Text,
    /// Bytes behind their length.
    Bytes,
}

/// Why an instruction is not shown by name.
#[derive(Drop)]
enum Unnamed {
    /// Its data or its accounts are those of no instruction of the program.
    Unknown,
    OutOfMemory,
}

impl From<AllocError> for Unnamed {
    fn from(_e: AllocError) -> Unnamed {
        Unnamed::OutOfMemory
    }
}

/// The members so far, and the data that are left.
#[derive(Drop)]
struct Draft<'a> {
    alloc: Global,
    keys: &'a [Key],
    instruction: &'a Instruction,
    members: Map<String, Value>,
    rest: &'a [u8],
}

fn text_value(alloc: Global, text: &str) -> Result<Value, AllocError> {
    Ok(Value::String(String::from_str(alloc, text)?))
}

/// The key at a place of the message. Those behind the static keys are loaded from tables.
fn key_value(alloc: Global, keys: &[Key], place: u8) -> Result<Value, AllocError> {
    match keys.get(usize::from(place)) {
        Some(key) => hex_value(alloc, &key.0),
        None => {
            let number = usize::from(place).saturating_sub(keys.len());
            Ok(Value::String(format!(in alloc; "loaded key {number}")?))
        }
    }
}

impl Draft<'_> {
    /// The next bytes of the data.
    fn take(&mut self, count: usize) -> Result<&[u8], Unnamed> {
        match self.rest.split_at_checked(count) {
            Some((front, back)) => {
                self.rest = back;
                Ok(front)
            }
            None => Err(Unnamed::Unknown),
        }
    }

    fn short(&mut self) -> Result<u64, Unnamed> {
        match self.rest.split_first_chunk::<4>() {
            Some((bytes, back)) => {
                self.rest = back;
                Ok(u64::from(u32::from_le_bytes(*bytes)))
            }
            None => Err(Unnamed::Unknown),
        }
    }

    fn long(&mut self) -> Result<u64, Unnamed> {
        match self.rest.split_first_chunk::<8>() {
            Some((bytes, back)) => {
                self.rest = back;
                Ok(u64::from_le_bytes(*bytes))
            }
            None => Err(Unnamed::Unknown),
        }
    }

    fn text(&mut self) -> Result<Value, Unnamed> {
        let alloc = self.alloc;
        let count = self.long()? as usize;
        match str::from_utf8(self.take(count)?) {
            Ok(text) => Ok(text_value(alloc, text)?),
            Err(_) => Err(Unnamed::Unknown),
        }
    }

    fn field(&mut self, kind: Kind) -> Result<Value, Unnamed> {
        let alloc = self.alloc;
        match kind {
            Kind::Short => Ok(Value::from(self.short()?)),
            Kind::Long => Ok(Value::from(self.long()?)),
            Kind::Key => Ok(hex_value(alloc, self.take(32)?)?),
            Kind::Text => self.text(),
            Kind::Bytes => {
                let count = self.long()? as usize;
                Ok(hex_value(alloc, self.take(count)?)?)
            }
        }
    }

    /// The accounts that it lists, from the first on.
    fn add_accounts(&mut self, names: &[&str]) -> Result<(), Unnamed> {
        for (at, name) in names.iter().enumerate() {
            let place = match self.instruction.accounts.as_slice().get(at) {
                Some(place) => *place,
                None => return Err(Unnamed::Unknown),
            };
            let key = key_value(self.alloc, self.keys, place)?;
            put(&mut self.members, self.alloc, *name, key)?;
        }
        Ok(())
    }

    fn add_fields(&mut self, fields: &[(&str, Kind)]) -> Result<(), Unnamed> {
        for (name, kind) in fields {
            let value = self.field(*kind)?;
            put(&mut self.members, self.alloc, *name, value)?;
        }
        Ok(())
    }

    /// The instruction of that name.
    fn add(
        &mut self,
        program: &str,
        name: &str,
        accounts: &[&str],
        fields: &[(&str, Kind)],
    ) -> Result<(), Unnamed> {
        let name = text_value(self.alloc, name)?;
        put(&mut self.members, self.alloc, program, name)?;
        self.add_accounts(accounts)?;
        self.add_fields(fields)
    }

    /// An instruction of the system program (Solana).
    fn add_system(&mut self) -> Result<(), Unnamed> {
        let owner = ("owner", Kind::Key);
        let base = ("base", Kind::Key);
        let seed = ("seed", Kind::Text);
        let space = ("space", Kind::Long);
        let lamports = ("lamports", Kind::Long);
        let from_to = ["from", "to"];
        match self.short()? {
            0 => self.add(
                "system",
                "CreateAccount",
                &from_to,
                &[lamports, space, owner],
            ),
            1 => self.add("system", "Assign", &["account"], &[owner]),
            2 => self.add("system", "Transfer", &from_to, &[lamports]),
            3 => {
                let fields = [base, seed, lamports, space, owner];
                self.add("system", "CreateAccountWithSeed", &from_to, &fields)
            }
            8 => self.add("system", "Allocate", &["account"], &[space]),
            9 => {
                let fields = [base, seed, space, owner];
                self.add("system", "AllocateWithSeed", &["account"], &fields)
            }
            10 => self.add(
                "system",
                "AssignWithSeed",
                &["account"],
                &[base, seed, owner],
            ),
            11 => {
                let accounts = ["from", "base", "to"];
                self.add(
                    "system",
                    "TransferWithSeed",
                    &accounts,
                    &[lamports, seed, owner],
                )
            }
            _ => Err(Unnamed::Unknown),
        }
    }

    /// A request to the compute budget program (Solana).
    fn add_budget(&mut self) -> Result<(), Unnamed> {
        let tag = match self.take(1)? {
            [tag] => *tag,
            _ => return Err(Unnamed::Unknown),
        };
        match tag {
            1 => self.add("budget", "RequestHeapFrame", &[], &[("bytes", Kind::Short)]),
            2 => self.add(
                "budget",
                "SetComputeUnitLimit",
                &[],
                &[("units", Kind::Short)],
            ),
            3 => {
                let fields = [("micro_lamports", Kind::Long)];
                self.add("budget", "SetComputeUnitPrice", &[], &fields)
            }
            4 => {
                let fields = [("bytes", Kind::Short)];
                self.add("budget", "SetLoadedAccountsDataSizeLimit", &[], &fields)
            }
            _ => Err(Unnamed::Unknown),
        }
    }

    /// An instruction of the loader.
    fn add_loader(&mut self) -> Result<(), Unnamed> {
        let both = ["buffer", "authority"];
        match self.short()? {
            0 => self.add("loader", "Init", &["buffer"], &[("authority", Kind::Key)]),
            1 => {
                let fields = [("offset", Kind::Short), ("bytes", Kind::Bytes)];
                self.add("loader", "Write", &both, &fields)
            }
            2 => self.add("loader", "Finalize", &both, &[]),
            3 => self.add("loader", "SetAuthority", &both, &[("to", Kind::Key)]),
            _ => Err(Unnamed::Unknown),
        }
    }

    fn add_native(&mut self, program: &Key) -> Result<(), Unnamed> {
        if *program == SYSTEM_PROGRAM {
            self.add_system()
        } else if *program == COMPUTE_BUDGET_PROGRAM {
            self.add_budget()
        } else if *program == LOADER_PROGRAM {
            self.add_loader()
        } else {
            Err(Unnamed::Unknown)
        }
    }
}

/// An instruction of another program: the program's key, and those of its accounts.
fn other_value(
    alloc: Global,
    keys: &[Key],
    instruction: &Instruction,
) -> Result<Value, AllocError> {
    let places = instruction.accounts.as_slice();
    let mut accounts = Vec::with_capacity(alloc, places.len())?;
    for place in places {
        accounts.push(key_value(alloc, keys, *place)?)?;
    }
    let mut members = Map::new(alloc);
    put(&mut members, alloc, "accounts", Value::Array(accounts))?;
    put(
        &mut members,
        alloc,
        "program",
        key_value(alloc, keys, instruction.program)?,
    )?;
    Ok(Value::Object(members))
}

/// An instruction by its name and with its fields, where its program is one of the three and knows
/// it; else with the keys of its program and its accounts.
pub(crate) fn instruction_value(
    alloc: Global,
    keys: &[Key],
    instruction: &Instruction,
) -> Result<Value, AllocError> {
    let program = match keys.get(usize::from(instruction.program)) {
        Some(program) => program,
        None => return other_value(alloc, keys, instruction),
    };
    let mut draft = Draft {
        alloc,
        keys,
        instruction,
        members: Map::new(alloc),
        rest: instruction.input.as_slice(),
    };
    match draft.add_native(program) {
        Ok(()) => Ok(Value::Object(draft.members)),
        Err(Unnamed::OutOfMemory) => Err(AllocError),
        Err(Unnamed::Unknown) => other_value(alloc, keys, instruction),
    }
}
