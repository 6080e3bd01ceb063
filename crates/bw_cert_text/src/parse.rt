//! Certificate texts, read line by line: nodes, chains and product rows, the lines after them, and
//! `END`.
ghost use Rattle.std.specs.Prelude.{◌≡◌, ◌≤◌, ◌^◌, ℕ, List, Ok, Err, false, IfOk};
ghost use Rattle.std.specs.Prelude.{IfErr, OnOk, IsTrue};
ghost use Rattle.bw_model.specs.Fault.{MatchesUnlessOom, is_memory};
ghost use Rattle.bw_text.specs.Lines.{lines_in, end_in, line_of};
ghost use Rattle.bw_cert_text.specs.CertificateFields.{CertificateFields, certificate_fields};
ghost use Rattle.bw_cert_text.specs.CertificateText.{certificate_of, certificate_from};
ghost use Rattle.bw_cert_text.specs.CertificateText.{parse_line_on, section_of, with_line};
ghost use Rattle.bw_cert_text.specs.CertificateText.{end_alone, last_line};
ghost use Rattle.bw_cert_text.specs.CertificateText.{IsCertificateText, IsCertificateFault};
ghost use Rattle.bw_cert_text.specs.Parts.{append_fields};
ghost use Rattle.bw_cert_text.specs.Reprint.{numbers_fit};
ghost use Rattle.bw_cert_text.specs.ParsedFields.{fields_before_end, parsed_fields};

use crate::body::Body;
use crate::certificate::Certificate;
use crate::line::{LineBeforeEnd, ParsedLine, parse_line_in};
use crate::lines::{ChainLine, EdgeProducts, EndLine, NodeLine, ProductLine};
use bw_model::{Fault, code};
use bw_text::{Line, Lines};
use std::alloc::{AllocError, Global};

impl<'a> Certificate<'a> {
    /// Reads a certificate text, the first line of which has this number, 1 to 2^32.
    ///
    /// Errors: 605 at the first line that has another form, that is a node, chain or product row
    /// after a line of a later section, or that follows `END`. If `END` is missing, 605 is at the
    /// end of the text, one line after the last. 801 if memory is refused.
    pub fn parse(alloc: Global, first_line: u64, text: &'a [u8]) -> Result<Self, Fault>
        requires numbered { 1 ≤ first_line }
        requires within_limit { first_line ≤ 2 ^ 32 }
        // A text that is read spells the certificate, and every text that spells one is read.
        ensures spelled { IfOk result
            (λ certificate. IsCertificateText first_line text.now
            (certificate_fields certificate)) }
        ensures accepted { (certificate : CertificateFields)
            → IsCertificateText first_line text.now certificate
            → MatchesUnlessOom certificate_fields result (Ok certificate) }

        // A failed call returns the first error of the text.
        ensures fault { MatchesUnlessOom certificate_fields result
            (certificate_of first_line text.now) }
        ensures code { IfErr result IsCertificateFault }

        // Its numbers are below 2^64, and its registers r0 to r63.
        ensures fits { IfOk result
            (λ certificate. IsTrue (numbers_fit (certificate_fields certificate))) }
    {
        read_certificate(alloc, first_line, text)
    }
}

/// A law: a text is read as a certificate if and only if its lines spell it. So it spells at most
/// one, and then it has no error.
pub fn certificates_are_read_as_spelled()
    ensures read { (first : ℕ) (text : List ℕ) (certificate : CertificateFields)
        → IsCertificateText first text certificate → certificate_of first text ≡ Ok certificate }
    ensures spelled { (first : ℕ) (text : List ℕ) (certificate : CertificateFields)
        → certificate_of first text ≡ Ok certificate → IsCertificateText first text certificate }
{}

/// The lines before the end that were read so far.
#[derive(Drop)]
pub(crate) struct Parts<'a> {
    nodes: Vec<NodeLine>,
    chains: Vec<ChainLine<'a>>,
    products: Vec<ProductLine>,
    body: Body,
}

impl<'a> Parts<'a> {
    /// Adds a line to those of its section.
    fn push(&mut self, part: LineBeforeEnd<'a, '_>) -> Result<(), AllocError>
        ensures { OnOk result ((rest : CertificateFields) → append_fields self.new rest
            ≡ append_fields self.old (with_line (fields_before_end part.entry) rest)) }
    {
        match part {
            LineBeforeEnd::Node(node) => self.nodes.push(node)?,
            LineBeforeEnd::Chain(chain) => self.chains.push(chain)?,
            LineBeforeEnd::Row(row) => self.products.push(row)?,
            LineBeforeEnd::Body(body) => self.body.push(&body)?,
        }
        Ok(())
    }
}

/// Returns the section of a line: 0 the nodes, 1 the chains, 2 the product rows, 3 the lines after
/// them.
fn section_of(part: &LineBeforeEnd<'_, '_>) -> u8
    ensures { result ≡ section_of (fields_before_end part.now) }
{
    match part {
        LineBeforeEnd::Node(_) => 0,
        LineBeforeEnd::Chain(_) => 1,
        LineBeforeEnd::Row(_) => 2,
        LineBeforeEnd::Body(_) => 3,
    }
}

/// Reads a certificate text line by line.
fn read_certificate(alloc: Global, first_line: u64, text: &[u8]) -> Result<Certificate<'_>, Fault>
    requires { first_line ≤ 2 ^ 32 }
    ensures read { MatchesUnlessOom certificate_fields result (certificate_of first_line text.now) }
    ensures code { IfErr result IsCertificateFault }
{
    let mut lines = Lines::from_line(first_line, text);
    let mut parts = Parts {
        nodes: Vec::new(alloc),
        chains: Vec::new(alloc),
        products: Vec::new(alloc),
        body: Body::new(alloc),
    };
    let end = read_parts(alloc, &mut lines, &mut parts)?;
    refuse_more(alloc, lines)?;
    Ok(Certificate::new(parts.nodes, parts.chains, parts.products, parts.body, end))
}

/// Reads the lines up to `END`, and returns that.
fn read_parts<'a>(
    alloc: Global,
    lines: &mut Lines<'a>,
    parts: &mut Parts<'a>,
) -> Result<EndLine, Fault>
    requires { (rest : CertificateFields) → append_fields parts.old rest ≡ rest }
    ensures read { IfOk result (λ end. certificate_from 0 (lines_in lines.old) (end_in lines.old)
        ≡ last_line (lines_in lines.new) (append_fields parts.new (end_alone end))) }
    ensures fault { IfErr result (λ fault. is_memory fault ≡ false
        → certificate_from 0 (lines_in lines.old) (end_in lines.old) ≡ Err fault) }
    ensures code { IfErr result IsCertificateFault }
{
    let mut section = 0;
    let mut pairs = Vec::new(alloc);
    while let Some(line) = lines.next_line(alloc)? {
        match parse_line_on(alloc, section, &line, &mut pairs)? {
            ParsedLine::Before(part) => {
                section = section_of(&part);
                parts.push(part)?;
            }
            ParsedLine::End(end) => return Ok(end),
        }
    }
    Err(Fault::at_line(code::CERTIFICATE_FORM, lines.number()))
}

/// Returns the fields of a line, which must not be of a section before this one. Its pairs are
/// stored in `pairs`.
fn parse_line_on<'a, 'b>(
    alloc: Global,
    section: u8,
    line: &Line<'a>,
    pairs: &'b mut Vec<EdgeProducts>,
) -> Result<ParsedLine<'a, 'b>, Fault>
    ensures parsed { MatchesUnlessOom parsed_fields result
        (parse_line_on section (line_of line.now)) }
    ensures code { IfErr result IsCertificateFault }
{
    let Some(said) = parse_line_in(alloc, line, pairs)? else {
        return Err(Fault::at_line(code::CERTIFICATE_FORM, line.number));
    };
    if matches!(&said, ParsedLine::Before(part) if section_of(part) < section) {
        return Err(Fault::at_line(code::CERTIFICATE_FORM, line.number));
    }
    Ok(said)
}

/// Fails if a line follows `END`.
fn refuse_more(alloc: Global, mut lines: Lines<'_>) -> Result<(), Fault>
    ensures none { OnOk result ((x : CertificateFields) → last_line (lines_in lines.entry) x
        ≡ Ok x) }
    ensures nonempty { IfErr result (λ fault. is_memory fault ≡ false
        → (x : CertificateFields) → last_line (lines_in lines.entry) x ≡ Err fault) }
    ensures code { IfErr result IsCertificateFault }
{
    let more = lines.next_line(alloc)?;
    match &more {
        None => Ok(()),
        Some(line) => Err(Fault::at_line(code::CERTIFICATE_FORM, line.number)),
    }
}
