//! The text of `ISO_Fortran_binding.h`.

ghost use Rattle.std.specs.Prelude.{◌≡◌};
ghost use Rattle.cfi_header.specs.Text.{declarations};

/// The word that names the type of descriptors in the text, and is none of C's: `CFI_cdesc_t` has no definition in the subset of C, since its last member
/// has no length (ISO/IEC 1539-1:2018, 18.5.3). `CFI_CDESC_T` is a word of the language itself.
pub const DESCRIPTOR_WORD: &[u8] = b"__CFI_descriptor";

/// The text of `ISO_Fortran_binding.h` (ISO/IEC 1539-1:2018, 18.5.2 to 18.5.5): the names of `stddef.h`, the types, the codes of attributes, types and errors,
/// and the functions.
pub const DECLARATIONS: &[u8] = b"#ifndef __ISO_Fortran_binding_h
#define __ISO_Fortran_binding_h
typedef unsigned long size_t;
typedef long ptrdiff_t;
#define NULL ((void*)0)
typedef __CFI_descriptor CFI_cdesc_t;
typedef signed char CFI_attribute_t;
typedef ptrdiff_t CFI_index_t;
typedef signed char CFI_rank_t;
typedef short CFI_type_t;
#define CFI_MAX_RANK 15
#define CFI_VERSION 1
#define CFI_attribute_other 0
#define CFI_attribute_allocatable 1
#define CFI_attribute_pointer 2
#define CFI_type_signed_char 1
#define CFI_type_int8_t 1
#define CFI_type_short 2
#define CFI_type_int16_t 2
#define CFI_type_int 3
#define CFI_type_int32_t 3
#define CFI_type_long 4
#define CFI_type_long_long 4
#define CFI_type_int64_t 4
#define CFI_type_size_t 4
#define CFI_type_intmax_t 4
#define CFI_type_intptr_t 4
#define CFI_type_ptrdiff_t 4
#define CFI_type_Bool 5
#define CFI_type_char 6
#define CFI_type_cptr 7
#define CFI_type_cfunptr 8
#define CFI_type_struct 9
#define CFI_type_other (-1)
#define CFI_SUCCESS 0
#define CFI_ERROR_BASE_ADDR_NULL 1
#define CFI_ERROR_BASE_ADDR_NOT_NULL 2
#define CFI_INVALID_ELEM_LEN 3
#define CFI_INVALID_RANK 4
#define CFI_INVALID_TYPE 5
#define CFI_INVALID_ATTRIBUTE 6
#define CFI_INVALID_EXTENT 7
#define CFI_INVALID_DESCRIPTOR 8
#define CFI_ERROR_MEM_ALLOCATION 9
#define CFI_ERROR_OUT_OF_BOUNDS 10
void *CFI_address(const CFI_cdesc_t *, const CFI_index_t []);
int CFI_allocate(CFI_cdesc_t *, const CFI_index_t [], const CFI_index_t [], size_t);
int CFI_deallocate(CFI_cdesc_t *);
int CFI_establish(CFI_cdesc_t *, void *, CFI_attribute_t, CFI_type_t, size_t, CFI_rank_t, const CFI_index_t []);
int CFI_is_contiguous(const CFI_cdesc_t *);
int CFI_section(CFI_cdesc_t *, const CFI_cdesc_t *, const CFI_index_t [], const CFI_index_t [], const CFI_index_t []);
int CFI_select_part(CFI_cdesc_t *, const CFI_cdesc_t *, size_t, size_t);
int CFI_setpointer(CFI_cdesc_t *, CFI_cdesc_t *, const CFI_index_t []);
#endif
";

/// The text of `ISO_Fortran_binding.h`.
pub fn declarations() -> &'static [u8]
    ensures { result.now ≡ declarations }
{
    DECLARATIONS
}
