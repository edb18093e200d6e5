//! Whole reads, whole writes and whole sends.
ghost use Rattle.std.specs.Prelude.{◌≡◌, ◌+◌, ◌<◌, ◌≤◌, ◌++◌, nat_lt, length, false, IfOk, OnOk, OnErr, IsErrOf};
ghost use Rattle.std.specs.Io.KnownBytes.{Consumes, Appends, IsAtEnd};
ghost use Rattle.sr_cell.specs.declared.list.No.TheVariants.{Refused, NoMemory as Wanting};
ghost use Rattle.sr_io.specs.declared.whole.ReadAll.TheVariants.{ReadFault, TooLong};
ghost use Rattle.sr_io.specs.Causes.{Rose};
ghost use Rattle.sr_io.specs.Pieces.{ReadsPiece, Lost, WritesPrefix, SendsPart};
ghost use Rattle.sr_io.specs.Told.{sent_on};

use crate::outside::{Failed, Link, Sink, Source};
use sr_cell::list::{Bytes, No, Seq};
use std::alloc::Global;

/// Why a whole read was refused.
#[derive(Clone, Copy)]
pub enum ReadAll {
    /// A call of the source failed.
    ReadFault,
    /// There are more bytes than the limit.
    TooLong,
}

/// Reads to the end. Where there are more than `limit` bytes, `limit + 1` of them are taken.
pub fn read_all<S: Source>(
    alloc: Global,
    source: &mut S,
    limit: usize,
) -> Result<Bytes, No<ReadAll>>
    ensures whole { IfOk result (λ bytes. Consumes (S.reading source.old).left (S.reading source.new).left bytes) }
    ensures at_end { OnOk result (IsAtEnd (S.reading source.new).left) }
    ensures within_limit { IfOk result (λ bytes. length bytes ≤ limit) }
    ensures too_long { IsErrOf result (Refused TooLong) → Lost (S.reading source.old).left (S.reading source.new).left (λ bytes. length bytes ≡ limit + 1) }
    ensures lost { OnErr result (Lost (S.reading source.old).left (S.reading source.new).left (λ bytes. length bytes ≤ limit + 1)) }
    ensures fault_within_limit { IsErrOf result (Refused ReadFault) → Lost (S.reading source.old).left (S.reading source.new).left (λ bytes. length bytes ≤ limit) }
    ensures want_within_limit { IsErrOf result Wanting → Lost (S.reading source.old).left (S.reading source.new).left (λ bytes. length bytes ≤ limit) }
    ensures faults_never_fall { (S.reading source.old).faults ≤ (S.reading source.new).faults }
    ensures too_long_keeps_faults { IsErrOf result (Refused TooLong) → (S.reading source.new).faults ≡ (S.reading source.old).faults }
    ensures ok_keeps_faults { OnOk result ((S.reading source.new).faults ≡ (S.reading source.old).faults) }
    ensures want_keeps_faults { IsErrOf result Wanting → (S.reading source.new).faults ≡ (S.reading source.old).faults }
    ensures fault_is_counted { IsErrOf result (Refused ReadFault) → Rose (S.reading source.old).faults (S.reading source.new).faults }
    ensures stays_steady { S.IsSteady source.old → S.IsSteady source.new }
    ensures steady_never_faults { S.IsSteady source.old → ¬ IsErrOf result (Refused ReadFault) }
    ensures held_stays { S.held source.new ≡ S.held source.old }
    ensures writing_stays { S.writing source.new ≡ S.writing source.old }
    ensures linking_stays { S.linking source.new ≡ S.linking source.old }
    ensures complaints_stay { S.complaints source.new ≡ S.complaints source.old }
{
    let mut bytes = Seq::new(alloc);
    let mut more = true;
    while more {
        match read_piece(source, &mut bytes, limit) {
            Ok(goes_on) => more = goes_on,
            Err(no) => return Err(no),
        }
    }
    Ok(bytes)
}

/// Reads one piece behind the bytes that are there, and tells whether there may be more.
fn read_piece<S: Source>(
    source: &mut S,
    bytes: &mut Bytes,
    limit: usize,
) -> Result<bool, No<ReadAll>>
    requires { length bytes.old ≤ limit }
    ensures piece { IfOk result (λ more. ReadsPiece (S.reading source.old).left (S.reading source.new).left bytes.old bytes.new limit more) }
    ensures too_long { IsErrOf result (Refused TooLong) → Lost (S.reading source.old).left (S.reading source.new).left (λ piece. length bytes.old + length piece ≡ limit + 1) }
    ensures lost { OnErr result (Lost (S.reading source.old).left (S.reading source.new).left (λ piece. length bytes.old + length piece ≤ limit + 1)) }
    ensures fault_within_limit { IsErrOf result (Refused ReadFault) → Lost (S.reading source.old).left (S.reading source.new).left (λ piece. length bytes.old + length piece ≤ limit) }
    ensures want_within_limit { IsErrOf result Wanting → Lost (S.reading source.old).left (S.reading source.new).left (λ piece. length bytes.old + length piece ≤ limit) }
    ensures faults_never_fall { (S.reading source.old).faults ≤ (S.reading source.new).faults }
    ensures too_long_keeps_faults { IsErrOf result (Refused TooLong) → (S.reading source.new).faults ≡ (S.reading source.old).faults }
    ensures ok_keeps_faults { OnOk result ((S.reading source.new).faults ≡ (S.reading source.old).faults) }
    ensures want_keeps_faults { IsErrOf result Wanting → (S.reading source.new).faults ≡ (S.reading source.old).faults }
    ensures fault_is_counted { IsErrOf result (Refused ReadFault) → Rose (S.reading source.old).faults (S.reading source.new).faults }
    ensures stays_steady { S.IsSteady source.old → S.IsSteady source.new }
    ensures steady_never_faults { S.IsSteady source.old → ¬ IsErrOf result (Refused ReadFault) }
    ensures held_stays { S.held source.new ≡ S.held source.old }
    ensures writing_stays { S.writing source.new ≡ S.writing source.old }
    ensures linking_stays { S.linking source.new ≡ S.linking source.old }
    ensures complaints_stay { S.complaints source.new ≡ S.complaints source.old }
{
    let mut room = [0u8; 4096];
    let spare = limit - bytes.len();
    let want = if spare < 4096 { spare + 1 } else { 4096 };
    match source.read(&mut room[..want]) {
        Ok(count) => keep_piece(bytes, &room[..count], spare),
        Err(no) => Err(not_read(no)),
    }
}

/// Puts a piece behind the bytes that are there, where no more than `spare` fit, and tells whether there may be more.
fn keep_piece(bytes: &mut Bytes, piece: &[u8], spare: usize) -> Result<bool, No<ReadAll>>
    ensures kept { OnOk result (bytes.new ≡ bytes.old ++ piece.now) }
    ensures fits { OnOk result (length piece.now ≤ spare) }
    ensures more { IfOk result (λ more. more ≡ nat_lt 0 (length piece.now)) }
    ensures too_long { IsErrOf result (Refused TooLong) → spare < length piece.now }
    ensures want_fits { IsErrOf result Wanting → length piece.now ≤ spare }
    ensures never_faults { ¬ IsErrOf result (Refused ReadFault) }
{
    if piece.len() > spare {
        return Err(No::Refused(ReadAll::TooLong));
    }
    bytes.extend(piece)?;
    Ok(!piece.is_empty())
}

/// The refusal of a whole read in which one read was refused.
fn not_read(no: No<Failed>) -> No<ReadAll>
    ensures refused { no ≡ Refused record {} → result ≡ Refused ReadFault }
    ensures wanting { no ≡ Wanting → result ≡ Wanting }
{
    match no {
        No::Refused(_) => No::Refused(ReadAll::ReadFault),
        No::NoMemory => No::NoMemory,
    }
}

/// Writes all bytes. After an `Err` a prefix of them was written.
pub fn write_all<K: Sink>(sink: &mut K, bytes: &[u8]) -> Result<(), No<Failed>>
    ensures whole { OnOk result (Appends (K.writing sink.old).written (K.writing sink.new).written bytes.now) }
    ensures prefix { WritesPrefix (K.writing sink.old).written (K.writing sink.new).written bytes.now }
    ensures faults_never_fall { (K.writing sink.old).faults ≤ (K.writing sink.new).faults }
    ensures ok_keeps_faults { OnOk result ((K.writing sink.new).faults ≡ (K.writing sink.old).faults) }
    ensures want_keeps_faults { IsErrOf result Wanting → (K.writing sink.new).faults ≡ (K.writing sink.old).faults }
    ensures failed_is_counted { IsErrOf result (Refused record {}) → Rose (K.writing sink.old).faults (K.writing sink.new).faults }
    ensures stays_steady { K.IsSteady sink.old → K.IsSteady sink.new }
    ensures steady_never_fails { K.IsSteady sink.old → ¬ IsErrOf result (Refused record {}) }
    ensures held_stays { K.held sink.new ≡ K.held sink.old }
    ensures reading_stays { K.reading sink.new ≡ K.reading sink.old }
    ensures linking_stays { K.linking sink.new ≡ K.linking sink.old }
    ensures complaints_stay { K.complaints sink.new ≡ K.complaints sink.old }
{
    let mut at = 0;
    while at < bytes.len() {
        match sink.write(&bytes[at..]) {
            Ok(count) => at += count,
            Err(no) => return Err(no),
        }
    }
    Ok(())
}

/// Sends all bytes. After an `Err` fewer of them were sent.
pub fn send_all<L: Link>(link: &mut L, bytes: &[u8]) -> Result<(), No<Failed>>
    ensures whole { OnOk result (L.linking link.new ≡ sent_on bytes.now (L.linking link.old)) }
    ensures part { OnErr result (SendsPart (L.linking link.old) (L.linking link.new) bytes.now) }
    ensures fails_without_connection { (L.linking link.old).is_up ≡ false → 0 < length bytes.now → IsErrOf result (Refused record {}) }
    ensures faults_never_fall { (L.linking link.old).faults ≤ (L.linking link.new).faults }
    ensures want_keeps_faults { IsErrOf result Wanting → (L.linking link.new).faults ≡ (L.linking link.old).faults }
    ensures failed_is_counted { IsErrOf result (Refused record {}) → Rose (L.linking link.old).faults (L.linking link.new).faults }
    ensures stays_up { (L.linking link.new).is_up ≡ (L.linking link.old).is_up }
    ensures stays_steady { L.IsSteady link.old → L.IsSteady link.new }
    ensures steady_fails_only_down { L.IsSteady link.old → IsErrOf result (Refused record {}) → (L.linking link.old).is_up ≡ false }
    ensures held_stays { L.held link.new ≡ L.held link.old }
    ensures reading_stays { L.reading link.new ≡ L.reading link.old }
    ensures writing_stays { L.writing link.new ≡ L.writing link.old }
    ensures complaints_stay { L.complaints link.new ≡ L.complaints link.old }
{
    let mut at = 0;
    while at < bytes.len() {
        match link.send(&bytes[at..]) {
            Ok(count) => at += count,
            Err(no) => return Err(no),
        }
    }
    Ok(())
}
