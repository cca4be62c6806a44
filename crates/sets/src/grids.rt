// The grid of a set: its coefficients in five rows of five.
ghost use Rattle.std.specs.Prelude.{◌≡◌, ◌<◌};
ghost use Rattle.sets.specs.Set.{grid_place, row_from, grid_of};
ghost use Rattle.sets.specs.Preconditions.{GridRow};

use crate::coefficients::coefficient;
use limits::{COEFFICIENT_SIZE, GRID_SIZE, SET_HEAD_SIZE};
use numbers::fields::Number;

pub fn read_grid(body: &[u8]) -> [[i64; GRID_SIZE]; GRID_SIZE]
    ensures { result ≡ grid_of body.now }
{
    let rows = usize::from(u8::at(body, 2)) + 1;
    let places = usize::from(u8::at(body, 3)) + 1;
    let mut grid = [[0i64; GRID_SIZE]; GRID_SIZE];
    if body.len() < SET_HEAD_SIZE + COEFFICIENT_SIZE * (rows * places) {
        return grid;
    }
    for (row, coefficients) in grid.iter_mut().enumerate() {
        read_row(body, rows, places, row, coefficients);
    }
    grid
}

// A row, filled where it is: one that is moved may be on the stack twice.
fn read_row(
    body: &[u8],
    rows: usize,
    places: usize,
    row: usize,
    coefficients: &mut [i64; GRID_SIZE],
)
    requires { GridRow body.now rows places row }
    ensures { coefficients.new ≡ row_from body.now row 5 0 }
{
    for (place, coefficient) in coefficients.iter_mut().enumerate() {
        *coefficient = read_place(body, rows, places, row, place);
    }
}

fn read_place(body: &[u8], rows: usize, places: usize, row: usize, place: usize) -> i64
    requires { (GridRow body.now rows places row) × (place < 5) }
    ensures { result ≡ grid_place body.now row place }
{
    if rows <= row || places <= place {
        return 0;
    }
    coefficient(
        body,
        SET_HEAD_SIZE + COEFFICIENT_SIZE * (row * places + place),
    )
}
