//! What follows from the definitions for every table, as contracts of functions with empty bodies.
ghost use Rattle.std.specs.Prelude.{◌≡◌, ◌≢◌, ◌≤◌, ◌∷◌, [], ◌++◌, ℕ, true, false, List, length, None};
ghost use Rattle.std.specs.List.{AllByRecursion};
ghost use Rattle.std.specs.Str.{IsUtf8};
ghost use Rattle.bep_wire.specs.Content.{Bytes, Item};
ghost use Rattle.bep_wire.specs.Fields.{fields};
ghost use Rattle.bep_messages.specs.Tables.{Words, Table, One, Message, Texts, Messages, Values, rises};
ghost use Rattle.bep_messages.specs.Protocol.{ping_table, download_progress_table, header_table, block_info_table, close_table};
ghost use Rattle.bep_messages.specs.Known.{is_known, is_single};
ghost use Rattle.bep_messages.specs.Contents.{contents, byte_lists};
ghost use Rattle.bep_messages.specs.Faults.{item_fault};
ghost use Rattle.bep_messages.specs.Memory.{SomeTakes, ItemTakes, TakesMemory, ElementTakes};
ghost use Rattle.bep_messages.specs.Values.{values};

use crate::octets::DIGEST_LEN;

/// Fields of different numbers may change places without changing the value.
pub fn fields_may_change_places()
    ensures { (table : Table) (v : Values table) (front rest : List Item) (a b : Item) → a.number ≢ b.number →
        values table v (front ++ a ∷ b ∷ rest) ≡ values table v (front ++ b ∷ a ∷ rest) }
{}

/// An unknown field changes nothing: not the value, wherever the field is, and it has no fault.
pub fn unknown_fields_change_nothing()
    ensures value { (table : Table) (v : Values table) (front rest : List Item) (i : Item) → rises 0 table ≡ true →
        is_known table i ≡ false → values table v (front ++ i ∷ rest) ≡ values table v (front ++ rest) }
    ensures fault { (table : Table) (i : Item) → is_known table i ≡ false → item_fault table i ≡ None }
{}

/// Of a single value that occurs again the last occurrence counts: one before it changes nothing.
pub fn last_one_wins()
    // A single value `a` changes nothing where `b` comes later: the premises say that both are of one known field.
    ensures { (table : Table) (v : Values table) (front middle rest : List Item) (a b : Item) → rises 0 table ≡ true →
        is_single table a.number ≡ true → a.number ≡ b.number → is_known table b ≡ true →
        values table v (front ++ a ∷ (middle ++ b ∷ rest)) ≡ values table v (front ++ (middle ++ b ∷ rest)) }
{}

/// For which fields decoding may allocate. Not for an unknown field, nor for a text that is not
/// UTF-8. For a message in a message only if it may for one of its own fields, and for one in a list
/// also if the message has no fault. Never for a field after one with a fault.
pub fn which_fields_take_memory()
    ensures unknown { (table : Table) (i : Item) → is_known table i ≡ false → ¬ ItemTakes table i }
    ensures bad_text { (number : ℕ) (rows : Table) (bytes : List ℕ) → ¬ IsUtf8 bytes →
        ¬ ItemTakes (One number Words rows) (record { number = number; content = Bytes bytes }) }
    ensures bad_text_in_a_list { (number : ℕ) (rows : Table) (bytes : List ℕ) → ¬ IsUtf8 bytes →
        ¬ ItemTakes (Texts number rows) (record { number = number; content = Bytes bytes }) }
    ensures message { (number : ℕ) (inner rows : Table) (bytes : List ℕ) →
        ItemTakes (Message number inner rows) (record { number = number; content = Bytes bytes }) →
        TakesMemory inner bytes }
    ensures message_in_a_list { (number : ℕ) (inner rows : Table) (bytes : List ℕ) →
        ItemTakes (Messages number inner rows) (record { number = number; content = Bytes bytes }) →
        ElementTakes inner bytes }
    // What comes behind a fault is not decoded: where some field allocates, one up to the faulty field `i` does.
    ensures after_a_fault { (table : Table) (front rest : List Item) (i : Item) → item_fault table i ≢ None →
        SomeTakes (ItemTakes table) (item_fault table) (front ++ i ∷ rest) →
        SomeTakes (ItemTakes table) (item_fault table) (front ++ i ∷ []) }
{}

/// Decoding never allocates for a Ping, a DownloadProgress or a Header, for a BlockInfo whose digest
/// has at most `DIGEST_LEN` bytes, or for a Close with an empty reason.
pub fn which_messages_take_no_memory()
    ensures ping { (bytes : List ℕ) → ¬ TakesMemory ping_table bytes }
    ensures download_progress { (bytes : List ℕ) → ¬ TakesMemory download_progress_table bytes }
    ensures header { (bytes : List ℕ) → ¬ TakesMemory header_table bytes }
    ensures block_info { (bytes : List ℕ) →
        AllByRecursion (λ held. length held ≤ DIGEST_LEN) (byte_lists (contents 3 (fields bytes).items)) →
        ¬ TakesMemory block_info_table bytes }
    ensures close { (bytes : List ℕ) →
        AllByRecursion (λ held. held ≡ []) (byte_lists (contents 1 (fields bytes).items)) →
        ¬ TakesMemory close_table bytes }
{}
