//! Builds the game that the lines say.
ghost use Rattle.std.specs.Prelude.{◌≡◌, IfErr, IfOk, OnOk};
ghost use Rattle.game_text.specs.declared.fault.TextFault.TheVariants as texts;
ghost use Rattle.game_text.specs.Built.{IsBuilt, IsEnded, IsSaid, Takes, with_entry};
ghost use Rattle.game_text.specs.Header.{said_by};
ghost use Rattle.game_text.specs.Progress.{said};

use crate::fault::TextFault;
use crate::header::Header;
use crate::progress::RowEntry;
use game_model::{Game, GameBuilder, GameFault};
use std::alloc::Global;

/// The fault of a builder that takes what the lines say: want of memory alone.
fn want_of_memory(fault: GameFault) -> TextFault
    requires { fault ≡ GameFault.OutOfMemory }
    ensures { result ≡ texts.OutOfMemory }
{
    drop(fault);
    TextFault::OutOfMemory
}

/// One more line of the rows.
fn add(builder: &mut GameBuilder, entry: RowEntry) -> Result<(), GameFault>
    requires { Takes builder.old entry }
    ensures added { OnOk result (builder.new ≡ with_entry builder.old entry) }
    ensures memory { IfErr result (λ fault. fault ≡ GameFault.OutOfMemory) }
{
    match entry {
        RowEntry::Step { reward, .. } => builder.step(reward),
        RowEntry::Out(landing) => builder.landing(landing.seen, landing.to, landing.weight),
        RowEntry::End => Ok(()),
    }
}

/// The game that a header and the lines of the rows say.
pub fn build(alloc: Global, header: &Header, entries: &[RowEntry]) -> Result<Game, TextFault>
    requires said { IsSaid (said entries.now (said_by header.now)) }
    requires ended { IsEnded (said entries.now (said_by header.now)) }
    ensures game { IfOk result (IsBuilt header.now.first.items (said entries.now (said_by header.now))) }
    ensures others { IfErr result (λ fault. fault ≡ texts.OutOfMemory) }
{
    let mut builder = match GameBuilder::new(alloc, header.shape, &header.first) {
        Ok(builder) => builder,
        Err(fault) => return Err(want_of_memory(fault)),
    };
    for entry in entries {
        match add(&mut builder, *entry) {
            Ok(()) => {}
            Err(fault) => return Err(want_of_memory(fault)),
        }
    }
    match builder.finish() {
        Ok(game) => Ok(game),
        Err(fault) => Err(want_of_memory(fault)),
    }
}
