//! A computation over what a trit may stand for.

/// The value of an expression over `$values` where the name `$name` has the value of a trit among them: of a known one its value;
/// of an unknown one each, and unknown where they differ. Where the first is unknown the other is not looked for. The values are
/// copied only where the trit is unknown.
macro_rules! filled {
    ($trit:expr, $values:ident, $name:expr => $value:expr) => {
        match $trit {
            Trit::Zero => {
                $values.set($name, false);
                $value
            }
            Trit::One => {
                $values.set($name, true);
                $value
            }
            Trit::Unknown => {
                let mut other = *$values;
                $values.set($name, false);
                let zero = $value;
                if zero.is_unknown() {
                    return zero;
                }
                let $values = &mut other;
                $values.set($name, true);
                let one = $value;
                zero.agreed(one)
            }
        }
    };
}

pub(crate) use filled;
