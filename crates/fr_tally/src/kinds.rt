//! The macro that writes out one arm for each kind of messages.

/// Inside a function's body, what there is for each of the sixteen kinds of messages, in their order, where `Kind` is a type with a
/// variant for each: `each_kind!(Kind)` is the array of all of them, and `each_kind!(kind, Kind; ..)` a `match` with an arm for each, of
/// which the answers are given. It has no arm for others, and one answer too few or too many doesn't compile.
#[macro_export]
macro_rules! each_kind {
    ($($asked:tt)+) => {
        $crate::kind_arms!(
            [
                Fetch Fetched Move Moved Drop Lock Granted Unlock
                Dup Dupped Release Start Join Joined Finished Migrate
            ];
            $($asked)+
        )
    };
}

/// What `each_kind` writes, over those variants.
#[doc(hidden)]
#[macro_export]
macro_rules! kind_arms {
    ([$($variant:ident)+]; $type:ident) => {
        [$($type::$variant),+]
    };
    ([$($variant:ident)+]; $kind:expr, $type:ident; $($answer:expr),+ $(,)?) => {
        match $kind {
            $($type::$variant => $answer,)+
        }
    };
}
