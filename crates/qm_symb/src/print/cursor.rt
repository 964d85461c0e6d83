// The place of a print job in its text, so that no step looks at what stands before it.
ghost use Rattle.std.specs.Prelude.{◌≡◌, ◌↔◌, ◌≤◌, ◌<◌, ◌+◌, ◌++◌, ◌∷◌, [], false, length, drop, map, IfOk, OnErr, MatchOption, IsTrue};
ghost use Rattle.qm_kinds.specs.declared.entry.JobKind.TheVariants.{Print};
ghost use Rattle.qm_model.specs.Pages.{flag_block, page_blocks, text_blocks};
ghost use Rattle.qm_symb.specs.Symbiont.{IsWithinLimits};
ghost use Rattle.qm_symb.specs.PagePlaces.{blocks_from, IsOneLess, IsDone};

use crate::print::page::{behind_page, page_of};
use crate::text::{FORM_FEED, LINE_FEED};
use qm_kinds::Work;
use std::alloc::{AllocError, Global};

/// Where a print job is: at a byte of its text, where its next page begins. It belongs to the work that it was made
/// for.
#[derive(Clone, Copy, Debug)]
pub struct Cursor {
    // Whether the flag page is still to come.
    flag: bool,
    // How many copies begin behind this one.
    copies: u8,
    // The byte of this copy's text, from 0, at which the next page begins.
    at: usize,
}

impl Cursor {
    /// The place in front of the first block.
    pub fn start(work: &Work) -> Cursor
        ensures { blocks_from work.now result ≡ page_blocks work.now }
    {
        Cursor {
            flag: work.flag,
            copies: work.copies,
            at: work.text.len(),
        }
    }

    // The same place, at the beginning of the next copy where this one is done.
    fn turned(self, work: &Work) -> Cursor
        ensures flag { result.flag ≡ self.flag }
        ensures same { blocks_from work.now result ≡ blocks_from work.now self }
        ensures done { length work.now.text ≤ result.at → result.flag ≡ false
            → blocks_from work.now result ≡ [] }
    {
        if self.at < work.text.len() || self.copies == 0 || work.text.is_empty() {
            return self;
        }
        Cursor {
            flag: self.flag,
            copies: self.copies - 1,
            at: 0,
        }
    }

    /// Whether no block is left.
    pub fn is_at_end(self, work: &Work) -> bool
        requires { IsWithinLimits work.now }
        ensures { IsTrue result ↔ (blocks_from work.now self ≡ []) }
    {
        let here = self.turned(work);
        !here.flag && here.at >= work.text.len()
    }

    /// The place behind the next block, where one is left. It takes no memory.
    pub fn behind_block(self, work: &Work) -> Option<Cursor>
        requires { IsWithinLimits work.now }
        ensures { MatchOption result (blocks_from work.now self ≡ [])
            (λ next. IsOneLess (blocks_from work.now self) (blocks_from work.now next)) }
    {
        if self.flag {
            return Some(Cursor {
                flag: false,
                ..self
            });
        }
        let here = self.turned(work);
        if here.at >= work.text.len() {
            return None;
        }
        let next = behind_page(work.shape, &work.text.as_slice()[here.at..]);
        Some(Cursor {
            at: here.at + next,
            ..here
        })
    }
}

// The page that names the job and its user.
fn flag_block(alloc: Global, work: &Work) -> Result<Vec<u8>, AllocError>
    ensures { IfOk result (λ block. block.items ≡ flag_block work.now) }
{
    let entry = work.entry;
    let name = work.name.as_str();
    let user = work.user.as_str();
    let mut block = format!(in alloc; "ENTRY {entry} JOB {name} USER {user}")?.into_bytes();
    block.push(LINE_FEED)?;
    block.push(FORM_FEED)?;
    Ok(block)
}

/// The next block of a print job, where one is left; the cursor is then behind it. It costs what the block holds, and
/// what a form that cuts lines leaves out of it. Memory may run out, and then the cursor is where it was.
pub fn next_block(
    alloc: Global,
    work: &Work,
    cursor: &mut Cursor,
) -> Result<Option<Vec<u8>>, AllocError>
    requires { IsWithinLimits work.now }
    ensures block { IfOk result (λ found. MatchOption found
        (IsDone (blocks_from work.now cursor.old) cursor.old cursor.new)
        (λ block. blocks_from work.now cursor.old
        ≡ block.items ∷ blocks_from work.now cursor.new)) }
    ensures no_memory { OnErr result (cursor.new ≡ cursor.old) }
{
    if cursor.flag {
        let block = flag_block(alloc, work)?;
        cursor.flag = false;
        return Ok(Some(block));
    }
    let here = cursor.turned(work);
    if here.at >= work.text.len() {
        return Ok(None);
    }
    let page = page_of(alloc, work.shape, &work.text.as_slice()[here.at..])?;
    *cursor = Cursor {
        at: here.at + page.next,
        ..here
    };
    Ok(Some(page.block))
}
