//! Turns that are taken as long as each says that more follows.

// What all turns give, from what is held and the lexemes. The last turn says that no more follows.
macro_rules! all_turns {
    ($turn:ident($($given:expr),*), $held:expr, $tokens:expr) => {{
        let mut held = $held;
        let mut rest = $tokens;
        loop {
            match $turn($($given,)* held, rest) {
                Err(stop) => return Err(stop),
                Ok((found, more, next)) => {
                    if !more {
                        return Ok((found, next));
                    }
                    held = found;
                    rest = next;
                }
            }
        }
    }};
}

pub(crate) use all_turns;
