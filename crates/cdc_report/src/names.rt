// The names of instructions.
ghost use Rattle.std.specs.Prelude.{◌≡◌};
ghost use Rattle.cdc_report.specs.Listing.{name_of};

use cdc_code::Instr;

/// The name by which an instruction is listed.
pub fn name_of(instr: Instr) -> &'static [u8]
    ensures { result.now ≡ name_of instr }
{
    match instr {
        Instr::Const(_) => b"const",
        Instr::Local(_) => b"local",
        Instr::Setlocal(_) => b"setlocal",
        Instr::Index(_) => b"index",
        Instr::Load(_, _, _) => b"load",
        Instr::Loade(_, _, _) => b"loade",
        Instr::Store(_, _) => b"store",
        Instr::Storee(_, _) => b"storee",
        Instr::Neg => b"neg",
        Instr::Abs => b"abs",
        Instr::Not => b"not",
        Instr::Add => b"add",
        Instr::Sub => b"sub",
        Instr::Mul => b"mul",
        Instr::Div => b"div",
        Instr::Mod => b"mod",
        Instr::Min => b"min",
        Instr::Max => b"max",
        Instr::Eq => b"eq",
        Instr::Ne => b"ne",
        Instr::Lt => b"lt",
        Instr::Le => b"le",
        Instr::Gt => b"gt",
        Instr::Ge => b"ge",
        Instr::And => b"and",
        Instr::Or => b"or",
        Instr::Jump(_) => b"jump",
        Instr::Jumpz(_) => b"jumpz",
        Instr::Doinit => b"doinit",
        Instr::Dotest(_) => b"dotest",
        Instr::Doadd => b"doadd",
        Instr::Take => b"take",
        Instr::RecordEnd => b"record",
        Instr::Put => b"put",
        Instr::Gap => b"gap",
        Instr::Text(_) => b"text",
        Instr::Line => b"line",
        Instr::Arg(_) => b"arg",
        Instr::Call(_) => b"call",
        Instr::Return => b"return",
        Instr::Fork(_, _) => b"fork",
        Instr::Join => b"join",
        Instr::Halt => b"halt",
    }
}
