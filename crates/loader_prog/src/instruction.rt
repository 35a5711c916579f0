//! The instructions of the loader.
ghost use Rattle.std.specs.Prelude.{◌≡◌};
ghost use Rattle.spec_base.specs.Reading.{Gives};
ghost use Rattle.loader_prog.specs.Requests.{accounts_needed, fields_at, init_at, is_loader_memory, request_as, request_in, set_authority_at, write_at};

use crate::fault::LoaderFault;
use format_fields::key_field;
use sol_base::Key;
use spec_base::{bytes_field, u32_field, u64_field};

/// An instruction of the loader.
#[derive(Clone, Copy)]
pub(crate) enum Instruction<'a> {
    /// A blank account becomes a buffer of the authority.
    Init { authority: Key },
    /// Bytes are written into a buffer, from that place of its image on.
    Write { offset: u32, bytes: &'a [u8] },
    /// A buffer with a verified image becomes final.
    Finalize,
    /// A buffer is given to another authority.
    SetAuthority { authority: Key },
}

impl Instruction<'_> {
    /// How many accounts it names.
    pub(crate) fn accounts(&self) -> usize
        ensures { result ≡ accounts_needed (request_as self.now) }
    {
        match self {
            Instruction::Init { .. } => 1,
            _ => 2,
        }
    }
}

/// The instruction that the data spell: a tag and its fields. What follows them is ignored.
#[tactic(auto, unfolding(crate::specs::Requests::request_in))]
pub(crate) fn read_instruction(input: &[u8]) -> Result<Instruction<'_>, LoaderFault>
    ensures { Gives is_loader_memory request_as result (request_in input.now) }
{
    let total = input.len();
    let (tag, rest) = u32_field::<LoaderFault>(total, input)?;
    read_fields(tag, total, rest)
}

fn read_fields(tag: u32, total: usize, bytes: &[u8]) -> Result<Instruction<'_>, LoaderFault>
    ensures { Gives is_loader_memory request_as result (fields_at tag total bytes.now) }
{
    match tag {
        0 => read_init(total, bytes),
        1 => read_write(total, bytes),
        2 => Ok(Instruction::Finalize),
        3 => read_set_authority(total, bytes),
        _ => Err(LoaderFault::InvalidInstruction),
    }
}

#[tactic(auto, unfolding(crate::specs::Requests::init_at))]
fn read_init(total: usize, bytes: &[u8]) -> Result<Instruction<'_>, LoaderFault>
    ensures { Gives is_loader_memory request_as result (init_at total bytes.now) }
{
    let (authority, _) = key_field::<LoaderFault>(total, bytes)?;
    Ok(Instruction::Init { authority })
}

#[tactic(auto, unfolding(crate::specs::Requests::write_at))]
fn read_write(total: usize, bytes: &[u8]) -> Result<Instruction<'_>, LoaderFault>
    ensures { Gives is_loader_memory request_as result (write_at total bytes.now) }
{
    let (offset, rest) = u32_field::<LoaderFault>(total, bytes)?;
    let (len, rest) = u64_field::<LoaderFault>(total, rest)?;
    let (piece, _) = bytes_field::<LoaderFault>(total, len as usize, rest)?;
    Ok(Instruction::Write {
        offset,
        bytes: piece,
    })
}

#[tactic(auto, unfolding(crate::specs::Requests::set_authority_at))]
fn read_set_authority(total: usize, bytes: &[u8]) -> Result<Instruction<'_>, LoaderFault>
    ensures { Gives is_loader_memory request_as result (set_authority_at total bytes.now) }
{
    let (authority, _) = key_field::<LoaderFault>(total, bytes)?;
    Ok(Instruction::SetAuthority { authority })
}
