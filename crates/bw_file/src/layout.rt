//! The layouts of a table's segments.

/// The layout of a table's segments, in memory and in its file.
#[derive(Clone, Copy, Debug, PartialEq, Eq)]
pub enum Layout {
    /// A plane of bits for each bit of a column's codes, as in BitWeaving's vertical layout.
    Planes,
    /// A run of bytes for each byte of a column's codes, as in ByteSlice.
    Slices,
}

/// Calls a function that is generic in the layout: `_` stands for the layout's type.
///
/// ```
/// in_layout!(layout, no_blocks::<_>(alloc, placement))
/// in_layout!(layout, PackedSegment::<_>::segment_size(placement))
/// ```
#[macro_export]
macro_rules! in_layout {
    (@either $layout:expr, $planes:expr, $slices:expr) => {
        match $layout {
            $crate::Layout::Planes => $planes,
            $crate::Layout::Slices => $slices,
        }
    };
    ($layout:expr, $function:ident::<_ $(, $other:ident)*>($($argument:expr),*)) => {
        $crate::in_layout!(
            @either $layout,
            $function::<$crate::Planes $(, $other)*>($($argument),*),
            $function::<$crate::Slices $(, $other)*>($($argument),*)
        )
    };
    ($layout:expr, $owner:ident::<_>::$function:ident($($argument:expr),*)) => {
        $crate::in_layout!(
            @either $layout,
            $owner::<$crate::Planes>::$function($($argument),*),
            $owner::<$crate::Slices>::$function($($argument),*)
        )
    };
    ($layout:expr, $owner:ident::$function:ident::<_>($($argument:expr),*)) => {
        $crate::in_layout!(
            @either $layout,
            $owner::$function::<$crate::Planes>($($argument),*),
            $owner::$function::<$crate::Slices>($($argument),*)
        )
    };
}
