//! What the definitions say, as contracts of functions that do nothing.
ghost use Rattle.std.specs.Prelude.{◌≡◌, ◌↔◌, ℕ, List};
ghost use Rattle.std.specs.declared.net.socket_addr.SocketAddrV4.{SocketAddrV4};
ghost use Rattle.node_config.specs.Addresses.{IsAddressText, socket_text};

/// Two texts of addresses mean the same socket exactly where the addresses are the same.
pub fn equal_sockets_are_equal_addresses()
    ensures { (text other : List ℕ) (a b : SocketAddrV4) → IsAddressText text a → IsAddressText other b →
        (socket_text text ≡ socket_text other) ↔ (a ≡ b) }
{}
