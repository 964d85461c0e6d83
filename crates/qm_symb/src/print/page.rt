// Pages: the lines between the margins, and a form feed.
ghost use Rattle.std.specs.Prelude.{◌≡◌, ◌<◌, ◌≤◌, ◌+◌, ◌++◌, ◌∷◌, [], length, drop, replicate, flat_map, OnOk, IfOk};
ghost use Rattle.qm_model.specs.Pages.{rows, line_block, page_block};
ghost use Rattle.qm_symb.specs.PageLines.{first_page, IsFirstPage};

use crate::print::line::first_line;
use crate::text::{FORM_FEED, LINE_FEED};
use qm_kinds::Shape;
use std::alloc::{AllocError, Global};

const BLANK: u8 = 32;

/// A page, and where the text goes on behind it.
#[derive(Drop)]
pub(crate) struct Page {
    pub block: Vec<u8>,
    pub next: usize,
}

// The lines between the margins.
fn rows(shape: Shape) -> usize
    requires { shape.top + shape.bottom < shape.length }
    ensures value { result ≡ rows shape }
    ensures some { 0 < result }
{
    (shape.length - shape.top - shape.bottom) as usize
}

// Writes a byte as often as is told.
fn write_margin(block: &mut Vec<u8>, byte: u8, count: u8) -> Result<(), AllocError>
    ensures { OnOk result (block.new.items ≡ block.old.items ++ replicate count byte) }
{
    for row in 0..count {
        block.push(byte)?;
    }
    Ok(())
}

// Writes a line behind the margin at the left.
fn write_line(block: &mut Vec<u8>, left: u8, line: &[u8]) -> Result<(), AllocError>
    ensures { OnOk result (block.new.items ≡ block.old.items ++ line_block left line.now) }
{
    write_margin(block, BLANK, left)?;
    block.extend_from_slice(line)?;
    block.push(LINE_FEED)?;
    Ok(())
}

// Writes the lines of the first page of a text that isn't empty, and tells where the text goes on behind the page.
fn write_lines(block: &mut Vec<u8>, shape: Shape, text: &[u8]) -> Result<usize, AllocError>
    requires rows { shape.top + shape.bottom < shape.length }
    requires columns { shape.left + shape.right < shape.width }
    requires some { 0 < length text.now }
    ensures lines { OnOk result (block.new.items
        ≡ block.old.items ++ flat_map (line_block shape.left) (first_page shape text.now)) }
    ensures page { IfOk result (λ next. IsFirstPage shape text.now (drop next text.now)) }
    ensures moves { IfOk result (λ next. 0 < next) }
    ensures inside { IfOk result (λ next. next ≤ length text.now) }
{
    if text[0] == FORM_FEED {
        return Ok(1);
    }
    let mut at = 0;
    for row in 0..rows(shape) {
        let rest = &text[at..];
        let line = first_line(shape, rest);
        write_line(block, shape.left, &rest[..line.shown])?;
        at += line.next;
        if line.is_last {
            return Ok(at);
        }
    }
    Ok(at)
}

/// The first page of a text that isn't empty. Memory may run out.
pub(crate) fn page_of(alloc: Global, shape: Shape, text: &[u8]) -> Result<Page, AllocError>
    requires rows { shape.top + shape.bottom < shape.length }
    requires columns { shape.left + shape.right < shape.width }
    requires some { 0 < length text.now }
    ensures block { IfOk result (λ page. page.block.items
        ≡ page_block shape (first_page shape text.now)) }
    ensures page { IfOk result (λ page. IsFirstPage shape text.now (drop page.next text.now)) }
    ensures moves { IfOk result (λ page. 0 < page.next) }
    ensures inside { IfOk result (λ page. page.next ≤ length text.now) }
{
    let mut block = Vec::new(alloc);
    write_margin(&mut block, LINE_FEED, shape.top)?;
    let next = write_lines(&mut block, shape, text)?;
    block.push(FORM_FEED)?;
    Ok(Page { block, next })
}

/// Where a text that isn't empty goes on behind its first page. It takes no memory.
pub(crate) fn behind_page(shape: Shape, text: &[u8]) -> usize
    requires rows { shape.top + shape.bottom < shape.length }
    requires columns { shape.left + shape.right < shape.width }
    requires some { 0 < length text.now }
    ensures page { IsFirstPage shape text.now (drop result text.now) }
    ensures moves { 0 < result }
    ensures inside { result ≤ length text.now }
{
    if text[0] == FORM_FEED {
        return 1;
    }
    let mut at = 0;
    for row in 0..rows(shape) {
        let line = first_line(shape, &text[at..]);
        at += line.next;
        if line.is_last {
            return at;
        }
    }
    at
}
