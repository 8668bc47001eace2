//! Variables in a row, as a tail call returns them.
ghost use Rattle.std.specs.Prelude.{◌≡◌, ◌+◌};
ghost use Rattle.reader.specs.Fields.{read_in, values_at};
ghost use Rattle.typing.specs.Marks.{is_variable};
ghost use Rattle.checker.specs.Walks.{in_row};

use reader::values::{Value, Values};
use reader::windows::Window;

/// Whether a value is the variable of a number.
fn is_variable(value: Value, number: usize) -> bool
    ensures { result ≡ is_variable number value }
{
    matches!(value, Value::Variable(x) if usize::from(x) == number)
}

/// Whether the values that stand in a window are the variables from `first` on, in order.
pub fn consecutive(window: &Window, first: u8, values: Values) -> bool
    ensures { result ≡ in_row first values.count (read_in window.now values_at values.count values.place) }
{
    let first = usize::from(first);
    let mut place = values.place;
    for number in first..first + usize::from(values.count) {
        let Ok((value, next)) = window.value(place) else {
            return false;
        };
        if !is_variable(value, number) {
            return false;
        }
        place = next;
    }
    true
}
