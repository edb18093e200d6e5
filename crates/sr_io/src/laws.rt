//! Laws of the definitions: functions that do nothing, and whose contracts are the laws.
ghost use Rattle.std.specs.Prelude.{◌≡◌, ℕ, List, Option, Some};
ghost use Rattle.std.specs.Io.KnownBytes.{Consumes, IsAtEnd};
ghost use Rattle.sr_io.specs.Told.{Connection, takes, Brings, IsOver};

/// What is read up to the end is all that was left, and what is taken from a connection until it is over is all that it had to bring.
pub fn no_piece_is_left_out()
    ensures read { (bytes piece : List ℕ) (left : Option (List ℕ)) → Consumes (Some bytes) left piece → IsAtEnd left → piece ≡ bytes }
    ensures taken { (c : Connection) (piece : List ℕ) → Brings (Some c) piece → IsOver (Some (takes piece c)) → piece ≡ c.coming }
{}
