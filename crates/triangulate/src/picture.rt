//! SVG pictures.

use crate::output::{push_number, push_triangle};
use std::alloc::AllocError;
use triangulation::{Point, Triangle};

const COLORS: [&str; 6] = [
    "#264653", "#2a9d8f", "#8ab17d", "#e9c46a", "#f4a261", "#e76f51",
];

#[derive(Clone, Copy)]
struct View {
    left: i32,
    right: i32,
    bottom: i32,
    top: i32,
}

impl View {
    fn around(self, p: Point) -> View {
        View {
            left: self.left.min(p.x),
            right: self.right.max(p.x),
            bottom: self.bottom.min(p.y),
            top: self.top.max(p.y),
        }
    }
}

fn extent(low: i32, high: i32) -> i64 {
    i64::from(high) - i64::from(low)
}

fn view_of(triangles: &[Triangle]) -> View {
    let mut view = match triangles.first() {
        Some(t) => View {
            left: t.a.x,
            right: t.a.x,
            bottom: t.a.y,
            top: t.a.y,
        },
        None => View {
            left: 0,
            right: 1,
            bottom: 0,
            top: 1,
        },
    };
    for t in triangles {
        view = view.around(t.a).around(t.b).around(t.c);
    }
    view
}

/// Shows `y` upwards.
pub fn push_head(text: &mut String, triangles: &[Triangle]) -> Result<(), AllocError> {
    let view = view_of(triangles);
    text.push_str("<svg xmlns=\"http://www.w3.org/2000/svg\" viewBox=\"")?;
    push_number(text, i64::from(view.left))?;
    text.push_str(" ")?;
    push_number(text, -i64::from(view.top))?;
    text.push_str(" ")?;
    push_number(text, extent(view.left, view.right))?;
    text.push_str(" ")?;
    push_number(text, extent(view.bottom, view.top))?;
    text.push_str("\">\n<style>path{vector-effect:non-scaling-stroke;stroke:#fff;")?;
    text.push_str(
        "stroke-width:.6px;stroke-linejoin:round}</style>\n<g transform=\"scale(1 -1)\">\n",
    )
}

pub fn push_path(text: &mut String, number: usize, t: Triangle) -> Result<(), AllocError> {
    text.push_str("<path fill=\"")?;
    text.push_str(COLORS[number % 6])?;
    text.push_str("\" d=\"M")?;
    push_triangle(text, t)?;
    text.push_str("z\"/>\n")
}

pub fn push_tail(text: &mut String) -> Result<(), AllocError> {
    text.push_str("</g>\n</svg>\n")
}
