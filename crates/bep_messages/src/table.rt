//! A message's table, as one macro of rows `NUMBER NAME KIND;`, is handed to these: they write the
//! bodies that each message has of its own.

/// What one field makes of the message: by its number the row, by the row's kind the function.
#[macro_export]
macro_rules! take_field {
    ($self:ident, $alloc:ident, $source:ident, $field:ident; $($number:literal $name:ident $kind:ident;)*) => {
        match $field.number {
            $($number => $crate::take_kind!($kind $self $name $alloc $source $field),)*
            _ => Ok(()),
        }
    };
}

#[macro_export]
macro_rules! take_kind {
    (words $self:ident $name:ident $alloc:ident $source:ident $field:ident) => {
        $crate::kinds::words(&mut $self.$name, $alloc, $source, $field)
    };
    (octets $self:ident $name:ident $alloc:ident $source:ident $field:ident) => {
        $crate::kinds::octets(&mut $self.$name, $alloc, $source, $field)
    };
    (digest $self:ident $name:ident $alloc:ident $source:ident $field:ident) => {
        $crate::kinds::digest(&mut $self.$name, $alloc, $source, $field)
    };
    (texts $self:ident $name:ident $alloc:ident $source:ident $field:ident) => {
        $crate::kinds::texts(&mut $self.$name, $alloc, $source, $field)
    };
    (message $self:ident $name:ident $alloc:ident $source:ident $field:ident) => {
        $crate::nested::one(&mut $self.$name, $alloc, $source, $field)
    };
    (messages $self:ident $name:ident $alloc:ident $source:ident $field:ident) => {
        $crate::nested::list(&mut $self.$name, $alloc, $source, $field)
    };
    ($kind:ident $self:ident $name:ident $alloc:ident $source:ident $field:ident) => {{
        $self.$name = $crate::kinds::$kind($self.$name, $field.value);
        Ok(())
    }};
}

/// The rows of a message, written one after the other.
#[macro_export]
macro_rules! write_rows {
    ($self:ident, $out:ident; $($number:literal $name:ident $kind:ident;)*) => {
        $($crate::write_row!($kind $number $self $name $out)?;)*
    };
}

#[macro_export]
macro_rules! write_row {
    (message $number:literal $self:ident $name:ident $out:ident) => {
        $crate::rows::one($out, $number, &$self.$name)
    };
    (messages $number:literal $self:ident $name:ident $out:ident) => {
        $crate::rows::list($out, $number, &$self.$name)
    };
    ($kind:ident $number:literal $self:ident $name:ident $out:ident) => {
        $crate::rows::$kind($out, $number, &$self.$name)
    };
}

/// A copy of a message.
#[macro_export]
macro_rules! copy_fields {
    ($message:ident, $self:ident; $($number:literal $name:ident $kind:ident;)*) => {
        Ok($message { $($name: $crate::copy_field!($kind $self $name),)* })
    };
}

#[macro_export]
macro_rules! copy_field {
    (words $self:ident $name:ident) => { $self.$name.copy()? };
    (octets $self:ident $name:ident) => { $self.$name.copy()? };
    (digest $self:ident $name:ident) => { $self.$name.copy()? };
    (texts $self:ident $name:ident) => { $self.$name.copy()? };
    (message $self:ident $name:ident) => { $self.$name.copy()? };
    (messages $self:ident $name:ident) => { $self.$name.copy()? };
    ($kind:ident $self:ident $name:ident) => { $self.$name };
}

/// The message without a field.
#[macro_export]
macro_rules! empty_fields {
    ($message:ident, $alloc:ident; $($number:literal $name:ident $kind:ident;)*) => {
        $message { $($name: $crate::empty_field!($kind $alloc),)* }
    };
}

#[macro_export]
macro_rules! empty_field {
    (words $alloc:ident) => { $crate::Text::new($alloc) };
    (octets $alloc:ident) => { $crate::Octets::new($alloc) };
    (digest $alloc:ident) => { $crate::ShortOctets::new($alloc) };
    (texts $alloc:ident) => { $crate::Items::new($alloc) };
    (messages $alloc:ident) => { $crate::Items::new($alloc) };
    (message $alloc:ident) => { $crate::ProtoMessage::make_empty($alloc) };
    (boolean $alloc:ident) => { false };
    ($kind:ident $alloc:ident) => { 0 };
}
