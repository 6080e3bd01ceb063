//! Certificates.
ghost use Rattle.std.specs.Prelude.{◌≡◌, length};
ghost use Rattle.bw_cert_text.specs.BodyLines.{body_lines};

use crate::body::{Body, BodyLines};
use crate::lines::{ChainLine, EndLine, NodeLine, ProductLine};
use std::marker::Model;

/// A certificate as its lines. Columns' names are those of its text, or of the planner's schema.
#[derive(Drop)]
pub struct Certificate<'a> {
    pub(crate) nodes: Vec<NodeLine>,
    pub(crate) chains: Vec<ChainLine<'a>>,
    pub(crate) products: Vec<ProductLine>,
    pub(crate) body: Body,
    pub(crate) end: EndLine,
}

impl<'a> Model for Certificate<'a> {
    ghost use Rattle.bw_cert_text.specs.CertificateShape.{CertificateShape};

    ghost Value = { CertificateShape };

    ghost view = { λ certificate. record {
      nodes = certificate.nodes.items;
      chains = certificate.chains.items;
      products = certificate.products.items;
      body = certificate.body;
      end = certificate.end;
    } };
}

impl<'a> Certificate<'a> {
    /// Returns the certificate of these lines.
    pub fn new(
        nodes: Vec<NodeLine>,
        chains: Vec<ChainLine<'a>>,
        products: Vec<ProductLine>,
        body: Body,
        end: EndLine,
    ) -> Self
        ensures { result ≡ record {
          nodes = nodes.items;
          chains = chains.entry.items;
          products = products.items;
          body = body;
          end = end;
        } }
    {
        Certificate {
            nodes,
            chains,
            products,
            body,
            end,
        }
    }

    /// Returns how many nodes it states.
    pub fn nodes(&self) -> usize
        ensures { result ≡ length self.now.nodes }
    {
        self.nodes.len()
    }

    /// Returns how many chains it states.
    pub fn chains(&self) -> usize
        ensures { result ≡ length self.now.chains }
    {
        self.chains.len()
    }

    /// Returns how many product rows it states.
    pub fn rows(&self) -> usize
        ensures { result ≡ length self.now.products }
    {
        self.products.len()
    }

    /// Returns the lines of its nodes, in order.
    pub fn node_lines(&self) -> &[NodeLine]
        ensures { result.now ≡ self.now.nodes }
    {
        &self.nodes
    }

    /// Returns the lines of its chains, in order.
    pub fn chain_lines(&self) -> &[ChainLine<'a>]
        ensures { result.now ≡ self.now.chains }
    {
        &self.chains
    }

    /// Returns the lines of its product rows, in order.
    pub fn product_lines(&self) -> &[ProductLine]
        ensures { result.now ≡ self.now.products }
    {
        &self.products
    }

    /// Returns the lines of conditions, instructions and joins, in order.
    pub fn body(&self) -> BodyLines<'_>
        ensures { body_lines result ≡ self.now.body }
    {
        self.body.lines()
    }

    /// Returns the last line.
    pub fn end(&self) -> EndLine
        ensures { result ≡ self.now.end }
    {
        self.end
    }
}
