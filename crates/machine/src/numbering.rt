ghost use Rattle.std.specs.Prelude.{◌≡◌, ◌+◌, ◌*◌};

// The number of a column in a row, where rows of this width are numbered one behind the other.
pub fn row_major(width: u16, row: u16, column: u16) -> usize
    ensures { result ≡ row * width + column }
{
    usize::from(row) * usize::from(width) + usize::from(column)
}
