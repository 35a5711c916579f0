//! Laws over the definitions.
ghost use Rattle.std.specs.Prelude.{◌≡◌, None, is_some, true};
ghost use Rattle.sbpf_asm.specs.Lines.{item_of};
ghost use Rattle.sbpf_asm.specs.Words.{Text};
ghost use Rattle.asm_hints.specs.Hints.{line_hint};

/// A law: each line that is spelled as nothing that there is has a hint.
pub fn refused_lines_have_hints()
    ensures hints { (line : Text) → item_of line ≡ None → is_some (line_hint line) ≡ true }
{}
