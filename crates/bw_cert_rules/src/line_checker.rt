//! The lines of instructions, each checked by its rule.
ghost use Rattle.std.specs.Prelude.{ℕ, ◌≡◌, ◌<◌, ◌≤◌, ◌&&◌, IsTrue, IfOk, IfErr, Ok, Err, length};
ghost use Rattle.std.specs.Prelude.{nat_lt};
ghost use Rattle.bw_model.specs.FaultTable.{INSTRUCTION_LINE};
ghost use Rattle.bw_model.specs.Code.{width_at, slices_at};
ghost use Rattle.bw_model.specs.Fault.{at_line};
ghost use Rattle.bw_model.specs.Variable.{first_variable, bit_variable, is_nullable};
ghost use Rattle.bw_program.specs.Program.{named_by};
ghost use Rattle.bw_program.specs.ProgramText.{found_on};
ghost use Rattle.bw_text.specs.Register.{register_count};
ghost use Rattle.bw_cert_rules.specs.Instruction.{check_instruction_line, set_register, fill};
ghost use Rattle.bw_cert_rules.specs.Instruction.{check_skip};
ghost use Rattle.bw_cert_rules.specs.Instruction.{plane_on, read_on, joined_on, opposite_on};
ghost use Rattle.bw_cert_rules.specs.Instruction.{byte_on, byte_node, past_node};
ghost use Rattle.bw_cert_rules.specs.Known.{is_known_fault};

use crate::known::Known;
use bw_cert_text::InstructionEntry;
use bw_diagram::{ChainKind, Connective, Diagram};
use bw_model::{Fault, Schema, code};
use bw_program::{BitIndex, ColumnIndex, Instr, Register, SliceIndex};

/// What lines are checked against: a schema, and the nodes, chains and product rows that a
/// certificate states under it.
#[derive(Clone, Copy)]
pub(crate) struct LineChecker<'a> {
    pub(crate) schema: &'a Schema,
    pub(crate) diagram: &'a Diagram<'a>,
}

/// Returns the error of a line that isn't what its instruction expects.
const fn unfit(line: u64) -> Fault
    ensures { result ≡ at_line INSTRUCTION_LINE line }
{
    Fault::at_line(code::INSTRUCTION_LINE, line)
}

/// Returns the node that a line shows, or the error of a line that shows none.
fn node_on_line(line: u64, node: Option<u64>) -> Result<u64, Fault>
    ensures node { result ≡ found_on INSTRUCTION_LINE line node }
    ensures code { IfErr result (λ fault. IsTrue (is_known_fault fault)) }
{
    match node {
        Some(node) => Ok(node),
        None => Err(unfit(line)),
    }
}

/// Sets a register's node, if there is one.
fn set_register(
    known: &mut Known,
    register: Register,
    node: Result<u64, Fault>,
) -> Result<(), Fault>
    requires register { register < 64 }
    requires code { IfErr node (λ fault. IsTrue (is_known_fault fault)) }
    ensures known { IfOk result (λ _. set_register known.old register node ≡ Ok known.new) }
    ensures fault { IfErr result (λ fault. set_register known.old register node ≡ Err fault) }
    ensures code { IfErr result (λ fault. IsTrue (is_known_fault fault)) }
{
    known[register as usize] = Some(node?);
    Ok(())
}

/// Sets a register's node to that of a constant.
fn fill(
    known: &mut Known,
    line: u64,
    register: Register,
    bit: bool,
    given: InstructionEntry,
) -> Result<(), Fault>
    requires register { register < 64 }
    ensures known { IfOk result (λ _. fill known.old line register bit given ≡ Ok known.new) }
    ensures fault { IfErr result (λ fault. fill known.old line register bit given ≡ Err fault) }
    ensures code { IfErr result (λ fault. IsTrue (is_known_fault fault)) }
{
    if given != InstructionEntry::Fill {
        return Err(unfit(line));
    }
    known[register as usize] = Some(u64::from(bit));
    Ok(())
}

/// Checks that the register which a skip reads has a node; nothing new is known after it.
fn check_skip(
    known: &Known,
    line: u64,
    register: Register,
    given: InstructionEntry,
) -> Result<(), Fault>
    requires register { register < 64 }
    ensures known { IfOk result (λ _. check_skip known.now line register given ≡ Ok known.now) }
    ensures fault { IfErr result (λ fault. check_skip known.now line register given ≡ Err fault) }
    ensures code { IfErr result (λ fault. IsTrue (is_known_fault fault)) }
{
    if given != InstructionEntry::Skip {
        return Err(unfit(line));
    }
    read(known, line, register)?;
    Ok(())
}

impl LineChecker<'_> {
    /// Updates what is known by an instruction and its line. If it fails, `known` may be changed or
    /// not.
    #[tactic(auto, unfolding(crate::specs::Instruction::check_instruction_line))]
    pub(crate) fn check_instruction_line(
        self,
        known: &mut Known,
        line: u64,
        instr: Instr,
        given: InstructionEntry,
    ) -> Result<(), Fault>
        requires columns { self.diagram.now.columns ≡ self.schema.now.columns.items }
        requires registers { named_by instr ≤ register_count }
        ensures known { IfOk result (λ _.
            check_instruction_line self.entry.diagram.now known.old line instr given
            ≡ Ok known.new) }
        ensures fault { IfErr result (λ fault.
            check_instruction_line self.entry.diagram.now known.old line instr given ≡ Err fault) }
        ensures code { IfErr result (λ fault. IsTrue (is_known_fault fault)) }
    {
        match instr {
            Instr::Load(r, col, bit) => {
                set_register(known, r, node_on_line(line, self.plane(col, bit, given)))
            }
            Instr::Nulls(r, col) => set_register(
                known,
                r,
                node_on_line(line, self.nulls(col, given)),
            ),
            Instr::Fill(r, bit) => fill(known, line, r, bit, given),
            Instr::And(r, x, y) => {
                let node = self.operation_node(known, line, Connective::And, x, y, given);
                set_register(known, r, node)
            }
            Instr::Or(r, x, y) => {
                let node = self.operation_node(known, line, Connective::Or, x, y, given);
                set_register(known, r, node)
            }
            Instr::Xor(r, x, y) => {
                let node = self.operation_node(known, line, Connective::Xor, x, y, given);
                set_register(known, r, node)
            }
            Instr::Not(r, x) => {
                let node = self.opposite(known, line, x, given);
                set_register(known, r, node)
            }
            Instr::ByteLt(r, col, slice, k) => {
                let node = self.byte(ChainKind::Less, col, slice, k, given);
                set_register(known, r, node_on_line(line, node))
            }
            Instr::ByteEq(r, col, slice, k) => {
                let node = self.byte(ChainKind::Equal, col, slice, k, given);
                set_register(known, r, node_on_line(line, node))
            }
            Instr::Skip(x, _) => check_skip(known, line, x, given),
        }
    }

    /// Returns the node of the plane of a column's bit, if the line shows it.
    fn plane(self, col: ColumnIndex, bit: BitIndex, given: InstructionEntry) -> Option<u64>
        requires columns { self.diagram.now.columns ≡ self.schema.now.columns.items }
        ensures { (line : ℕ) → plane_on self.entry.diagram.now line
            (nat_lt col (length self.entry.diagram.now.columns)
            && nat_lt bit (width_at self.entry.diagram.now.columns col))
            (bit_variable self.entry.diagram.now.columns col bit) given
            ≡ found_on INSTRUCTION_LINE line result }
    {
        let InstructionEntry::Load(node) = given else {
            return None;
        };
        let (col, bit) = (col as usize, u32::from(bit));
        if col >= self.schema.columns.len() || bit >= self.schema.width(col) {
            return None;
        }
        self.diagram
            .variable_node(self.schema.var_bit(col, bit), node)
    }

    /// Returns the node of a column's null plane, if the line shows it.
    fn nulls(self, col: ColumnIndex, given: InstructionEntry) -> Option<u64>
        requires columns { self.diagram.now.columns ≡ self.schema.now.columns.items }
        ensures { (line : ℕ) → plane_on self.entry.diagram.now line
            (nat_lt col (length self.entry.diagram.now.columns)
            && is_nullable self.entry.diagram.now.columns col)
            (first_variable self.entry.diagram.now.columns col) given
            ≡ found_on INSTRUCTION_LINE line result }
    {
        let InstructionEntry::Load(node) = given else {
            return None;
        };
        let col = col as usize;
        if col >= self.schema.columns.len() {
            return None;
        }
        let variable = self.schema.var_null(col)?;
        self.diagram.variable_node(variable, node)
    }

    /// Returns the node of an operation on two registers.
    fn operation_node(
        self,
        known: &Known,
        line: u64,
        op: Connective,
        x: Register,
        y: Register,
        given: InstructionEntry,
    ) -> Result<u64, Fault>
        requires registers { (x < 64) × (y < 64) }
        ensures node { result ≡ joined_on self.entry.diagram.now known.now line op x y given }
        ensures code { IfErr result (λ fault. IsTrue (is_known_fault fault)) }
    {
        let InstructionEntry::Op(row) = given else {
            return Err(unfit(line));
        };
        let a = read(known, line, x)?;
        let b = read(known, line, y)?;
        node_on_line(line, self.diagram.product_node(op, a, b, row))
    }

    /// Returns the node of a register's complement.
    fn opposite(
        self,
        known: &Known,
        line: u64,
        x: Register,
        given: InstructionEntry,
    ) -> Result<u64, Fault>
        requires register { x < 64 }
        ensures node { result ≡ opposite_on self.entry.diagram.now known.now line x given }
        ensures code { IfErr result (λ fault. IsTrue (is_known_fault fault)) }
    {
        let InstructionEntry::Op(row) = given else {
            return Err(unfit(line));
        };
        let a = read(known, line, x)?;
        node_on_line(line, self.diagram.product_node(Connective::Diff, 1, a, row))
    }

    /// Returns the node of a byte comparison, if the line shows it.
    fn byte(
        self,
        kind: ChainKind,
        col: ColumnIndex,
        slice: SliceIndex,
        k: u8,
        given: InstructionEntry,
    ) -> Option<u64>
        requires columns { self.diagram.now.columns ≡ self.schema.now.columns.items }
        ensures { (line : ℕ) → byte_on self.entry.diagram.now line kind
            (nat_lt col (length self.entry.diagram.now.columns)
            && nat_lt slice (slices_at self.entry.diagram.now.columns col)) col slice k given
            ≡ found_on INSTRUCTION_LINE line result }
    {
        let InstructionEntry::Byte(chain) = given else {
            return None;
        };
        let (column, place) = (col as usize, slice as usize);
        if column >= self.schema.columns.len() || place >= self.schema.slices(column) {
            return None;
        }
        self.byte_node(kind, column, u32::from(slice), k, chain)
    }

    /// Returns the node of a byte comparison of a slice that exists, if the line names a chain
    /// exactly if there is one.
    fn byte_node(
        self,
        kind: ChainKind,
        col: usize,
        slice: u32,
        k: u8,
        chain: Option<u64>,
    ) -> Option<u64>
        requires columns { self.diagram.now.columns ≡ self.schema.now.columns.items }
        requires column { col < length self.diagram.now.columns }
        requires slice { slice < slices_at self.diagram.now.columns col }
        ensures { result ≡ byte_node self.entry.diagram.now kind col slice k chain }
    {
        let bits = (self.schema.width(col) - 8 * slice).min(8);
        let past = u32::from(k) >= 1 << bits;
        match chain {
            None if past => Some(past_node(kind)),
            Some(chain) if !past => {
                self.diagram
                    .comparison_node(kind, col as u32, 8 * slice, bits, u64::from(k), chain)
            }
            _ => None,
        }
    }
}

/// Returns the node of a comparison of bytes with a number that is greater than each of them.
const fn past_node(kind: ChainKind) -> u64
    ensures { result ≡ past_node kind }
{
    match kind {
        ChainKind::Less => 1,
        ChainKind::Equal => 0,
    }
}

/// Returns the node of a register that is read.
fn read(known: &Known, line: u64, register: Register) -> Result<u64, Fault>
    requires { register < 64 }
    ensures node { result ≡ read_on known.now line register }
    ensures code { IfErr result (λ fault. IsTrue (is_known_fault fault)) }
{
    match known[register as usize] {
        Some(node) => Ok(node),
        None => Err(Fault::at_line(code::REGISTER_UNKNOWN, line)),
    }
}
